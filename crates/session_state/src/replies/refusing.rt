//! The replies that refuse a request (RFC 2326, 7.1.1).
ghost use Rattle.std.specs.Prelude.{◌≡◌, IfOk, None, Some, if◌then◌else◌};
ghost use Rattle.std.specs.Option.{option_copied, option_map};
ghost use Rattle.rtsp_message.specs.Headers.{value_of};
ghost use Rattle.session_state.specs.Checks.{Asked, state_in};
ghost use Rattle.session_state.specs.History.{History};
ghost use Rattle.session_state.specs.Judged.{asked_of};
ghost use Rattle.session_state.specs.Replies.{allow_of as allow_for, allowed_in, fields_of, refusal, status_of, tells_session as tells_of_session, told_session as told_of_session, unsupported_of as unsupported_for};

use crate::checks::Check;
use crate::replies::told_session;
use crate::session::{Session, State};
use crate::world::World;
use base_syntax::Bytes;
use rtsp_message::{Fields, Reply, Request, Status};
use std::alloc::{AllocError, Global};

impl Check {
    /// What a request is answered that doesn't pass this check first (RFC 2326, 7.1.1).
    pub fn status(self) -> Status
        ensures { result ≡ status_of self }
    {
        match self {
            Check::HasCSeq => Status::BadRequest,
            Check::HasVersion => Status::VersionNotSupported,
            Check::HasMethod => Status::NotImplemented,
            Check::RequiresNothing => Status::OptionNotSupported,
            Check::HasUri(_) => Status::BadRequest,
            Check::HasItsSession(_) => Status::SessionNotFound,
            Check::NamesAStream(_) => Status::NotFound,
            Check::FitsState(_) => Status::MethodNotValidInThisState,
            Check::HasNoBody => Status::ParameterNotUnderstood,
            Check::AcceptsSdp => Status::NotAcceptable,
            Check::MayAnnounce => Status::Forbidden,
            Check::HasSdpType => Status::UnsupportedMediaType,
            Check::IsDescription => Status::BadRequest,
            Check::HasFewTracks => Status::RequestEntityTooLarge,
            Check::HasRoomForMount => Status::ServiceUnavailable,
            Check::OwnsNoOther => Status::Forbidden,
            Check::NamesATrack => Status::AggregateOperationNotAllowed,
            Check::HasTransport => Status::UnsupportedTransport,
            Check::MayRecord => Status::Forbidden,
            Check::HasRoomForSession => Status::ServiceUnavailable,
            Check::IsForPlaying => Status::Forbidden,
            Check::IsForRecording => Status::Forbidden,
            Check::IsAggregate => Status::OnlyAggregateOperationAllowed,
            Check::HasFreeSeat => Status::NotEnoughBandwidth,
        }
    }

    /// Whether a refusal tells of the session: at each check after the one that the session is named.
    fn tells_session(self) -> bool
        ensures { result ≡ tells_of_session self }
    {
        match self {
            Check::HasCSeq => false,
            Check::HasVersion => false,
            Check::HasMethod => false,
            Check::RequiresNothing => false,
            Check::HasUri(_) => false,
            Check::HasItsSession(_) => false,
            _ => true,
        }
    }
}

/// The methods that are allowed in the state of a session (RFC 2326, 12.4 and A.2).
fn allowed(state: State) -> &'static [u8]
    ensures { Some result.now ≡ allowed_in (Some state) }
{
    match state {
        State::Ready => b"OPTIONS, DESCRIBE, GET_PARAMETER, SETUP, PLAY, RECORD, TEARDOWN",
        State::Playing { .. } => b"OPTIONS, DESCRIBE, GET_PARAMETER, PLAY, PAUSE, TEARDOWN",
        State::Recording => b"OPTIONS, DESCRIBE, GET_PARAMETER, RECORD, PAUSE, TEARDOWN",
    }
}

/// The value of an Allow field: none without a session.
fn allow(alloc: Global, session: Option<&Session>) -> Result<Option<Bytes>, AllocError>
    ensures { IfOk result (λ value. value ≡ allowed_in (state_in (option_copied session.entry))) }
{
    let Some(session) = session else {
        return Ok(None);
    };
    Ok(Some(Bytes::from_slice(alloc, allowed(session.state))?))
}

/// A copy of the first field of a name.
fn copied_field(alloc: Global, request: &Request, name: &[u8]) -> Result<Option<Bytes>, AllocError>
    ensures { IfOk result (λ value. value ≡ value_of request.now.headers name.now) }
{
    let Some(value) = request.header(name) else {
        return Ok(None);
    };
    Ok(Some(Bytes::from_slice(alloc, value.as_slice())?))
}

/// The value of a refusal's Allow field.
fn allow_of(
    alloc: Global,
    session: Option<&Session>,
    check: Check,
) -> Result<Option<Bytes>, AllocError>
    ensures { IfOk result (λ value. (asked : Asked) → asked.session ≡ option_copied session.entry → value ≡ allow_for asked check) }
{
    match check {
        Check::FitsState(_) => allow(alloc, session),
        _ => Ok(None),
    }
}

/// The value of a refusal's Unsupported field (RFC 2326, 12.41).
fn unsupported_of(
    alloc: Global,
    request: &Request,
    check: Check,
) -> Result<Option<Bytes>, AllocError>
    ensures { IfOk result (λ value. (asked : Asked) → asked.request ≡ request.now → value ≡ unsupported_for asked check) }
{
    match check {
        Check::RequiresNothing => copied_field(alloc, request, b"Require"),
        _ => Ok(None),
    }
}

impl World {
    /// The value of a refusal's Session field.
    fn told_by(
        &self,
        alloc: Global,
        conn: u64,
        request: &Request,
        check: Check,
    ) -> Result<Option<Bytes>, AllocError>
        ensures { IfOk result (λ told. (history : History) → told ≡ (if tells_of_session check then told_of_session (asked_of self.now history conn request.now) else None)) }
    {
        if check.tells_session() {
            return Ok(told_session(alloc, request, self.session_of(conn))?);
        }
        Ok(None)
    }

    /// The fields of a refusal.
    fn refusal_fields(
        &self,
        alloc: Global,
        conn: u64,
        request: &Request,
        check: Check,
    ) -> Result<Fields, AllocError>
        ensures { IfOk result (λ fields. (history : History) → fields ≡ fields_of (asked_of self.now history conn request.now) check) }
    {
        Ok(Fields {
            session: self.told_by(alloc, conn, request, check)?,
            allow: allow_of(alloc, self.session_of(conn), check)?,
            unsupported: unsupported_of(alloc, request, check)?,
            ..Fields::none()
        })
    }

    /// The reply to a request that doesn't pass a check.
    pub(crate) fn refuse(
        &self,
        alloc: Global,
        conn: u64,
        request: &Request,
        check: Check,
    ) -> Result<Reply, AllocError>
        ensures { IfOk result (λ reply. (history : History) → reply ≡ refusal (asked_of self.now history conn request.now) check) }
    {
        Ok(Reply {
            status: check.status(),
            cseq: request.cseq,
            fields: self.refusal_fields(alloc, conn, request, check)?,
            body: Bytes::empty(alloc),
        })
    }
}
