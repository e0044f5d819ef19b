//! The replies that accept a request, and what each changes (RFC 2326, 10).
ghost use Rattle.std.specs.Prelude.{◌≡◌, ◌<◌, ◌∷◌, [], ℕ, IfOk, IsSome, MatchOption, None, Some, codes};
ghost use Rattle.std.specs.Option.{option_copied};
ghost use Rattle.rtsp_message.specs.declared.status.Status.TheVariants.{Ok};
ghost use Rattle.mounts.specs.declared.target.Target as targets;
ghost use Rattle.mounts.specs.declared.mount.Mount as mounts_;
ghost use Rattle.mounts.specs.Mounts.{numbered};
ghost use Rattle.transport_header.specs.Chosen.{IsFirstAcceptable};
ghost use Rattle.transport_header.specs.declared.spec.Spec as transports;
ghost use Rattle.session_state.specs.declared.checks.accepted.Accepted.TheVariants as found;
ghost use Rattle.session_state.specs.declared.method.Method.TheVariants as methods;
ghost use Rattle.session_state.specs.Checks.{Asked};
ghost use Rattle.session_state.specs.History.{History};
ghost use Rattle.session_state.specs.Judged.{CanTake, Finds, HasNumberLeft, HasPlaceFor, IsAcceptedWith, IsFine, IsThere, asked_of, method_in, play_change};
ghost use Rattle.session_state.specs.Replies.{accepting as accepting_with, info_at as info_told, infos as infos_told, info_field, no_fields, told_to, url_for};
ghost use Rattle.session_state.specs.Fields.{sdp_type};
ghost use Rattle.sdp.specs.Written.{description_text};
ghost use Rattle.session_state.specs.Methods.{public_methods};
ghost use Rattle.session_state.specs.Stands.{Stands, kept_of, session_kept};

use crate::checks::Accepted;
use crate::given::Given;
use crate::replies::playing::playing_reply;
use crate::replies::telling_reply;
use crate::session::{Session, State};
use crate::world::{Change, World};
use base_syntax::{Bytes, Items};
use mounts::Target;
use rtsp_message::{Fields, Reply, Request};
use sdp::{Description, write};
use std::alloc::{AllocError, Global};

/// The methods of the Public field (RFC 2326, 10.1).
const PUBLIC_METHODS: &[u8] =
    b"OPTIONS, DESCRIBE, ANNOUNCE, SETUP, PLAY, PAUSE, RECORD, TEARDOWN, GET_PARAMETER";

/// A request whose reply tells nothing but the session, and what it changes.
fn plainly(
    alloc: Global,
    request: &Request,
    session: Option<&Session>,
    change: Change,
) -> Result<(Reply, Change), AllocError>
    ensures reply { IfOk result (λ r. r.0 ≡ record { status = Ok; cseq = request.now.cseq; fields = record no_fields { session = told_to request.now (option_copied session.entry) }; body = [] }) }
    ensures change { IfOk result (λ r. r.1 ≡ change) }
{
    let empty = Bytes::empty(alloc);
    let reply = telling_reply(alloc, request, session, Fields::none(), empty)?;
    Ok((reply, change))
}

/// OPTIONS tells the methods (RFC 2326, 10.1).
fn methods_told(
    alloc: Global,
    request: &Request,
    session: Option<&Session>,
) -> Result<Reply, AllocError>
    ensures { IfOk result (λ reply. reply ≡ record { status = Ok; cseq = request.now.cseq; fields = record no_fields { session = told_to request.now (option_copied session.entry); public = Some public_methods }; body = [] }) }
{
    let fields = Fields {
        public: Some(Bytes::from_slice(alloc, PUBLIC_METHODS)?),
        ..Fields::none()
    };
    telling_reply(alloc, request, session, fields, Bytes::empty(alloc))
}

/// DESCRIBE tells the description of a mount, and the base of its controls (RFC 2326, 10.2 and C.1.1).
fn described(
    alloc: Global,
    request: &Request,
    session: Option<&Session>,
    base: Bytes,
    description: &Description,
) -> Result<Reply, AllocError>
    ensures { IfOk result (λ reply. reply ≡ record {
      status = Ok;
      cseq = request.now.cseq;
      fields = record no_fields { session = told_to request.now (option_copied session.entry); content_base = Some base; content_type = Some sdp_type };
      body = description_text description.now;
    }) }
{
    let body = Bytes::new(write(alloc, description)?);
    let fields = Fields {
        content_base: Some(base),
        content_type: Some(Bytes::from_slice(alloc, b"application/sdp")?),
        ..Fields::none()
    };
    telling_reply(alloc, request, session, fields, body)
}

impl World {
    /// DESCRIBE of a live mount (RFC 2326, 10.2).
    fn describe(
        &self,
        alloc: Global,
        conn: u64,
        request: &Request,
        target: Target,
        number: u64,
    ) -> Result<Reply, AllocError>
        requires there { IsSome (numbered number self.now.mounts.mounts) }
        ensures { IfOk result (λ reply. (mount : mounts_.Mount) → numbered number self.now.mounts.mounts ≡ Some mount
            → reply ≡ record { status = Ok; cseq = request.now.cseq; fields = record no_fields { session = told_to request.now (session_kept self.now conn); content_base = Some target.base; content_type = Some sdp_type }; body = description_text mount.description }) }
    {
        let mount = self.mounts.numbered(number).unwrap();
        let session = self.session_of(conn);
        described(alloc, request, session, target.base, &mount.description)
    }

    /// What a request is answered that passes all its checks, and what that changes.
    pub(crate) fn accept(
        &self,
        alloc: Global,
        conn: u64,
        request: &Request,
        given: &Given,
        accepted: Accepted,
    ) -> Result<(Reply, Change), AllocError>
        requires there { IsThere self.now conn accepted }
        ensures ok { IfOk result (λ r. (history : History) → Stands history self.now → Finds (asked_of self.now history conn request.now) accepted
            → IsAcceptedWith (asked_of self.now history conn request.now) (method_in accepted) given.entry.now r.0 r.1) }
        ensures can { IfOk result (λ r. CanTake self.now conn r.1) }
    {
        let session = self.session_of(conn);
        match accepted {
            Accepted::Options => {
                let reply = methods_told(alloc, request, session)?;
                Ok((reply, Change::Nothing))
            }
            Accepted::Describe { target, mount } => {
                let reply = self.describe(alloc, conn, request, target, mount)?;
                Ok((reply, Change::Nothing))
            }
            Accepted::Announce {
                target,
                description,
            } => {
                let name = target.path;
                let change = Change::Announce { name, description };
                plainly(alloc, request, session, change)
            }
            Accepted::Setup {
                mount,
                track,
                specs,
            } => self.set_up(alloc, conn, request, given, mount, track, specs.as_slice()),
            Accepted::Play { target, track } => {
                let session = session.unwrap();
                let reply = playing_reply(alloc, request, session, &target, track, given)?;
                Ok((reply, change_of_play(session.state)))
            }
            Accepted::GetParameter => plainly(alloc, request, session, Change::Nothing),
            Accepted::Record => plainly(alloc, request, session, Change::Record),
            Accepted::Pause => plainly(alloc, request, session, Change::Pause),
            Accepted::Teardown => plainly(alloc, request, session, Change::Teardown),
        }
    }
}

/// PLAY takes a seat where the session hasn't one.
fn change_of_play(state: State) -> Change
    ensures { result ≡ play_change (Some state) }
{
    match state {
        State::Ready => Change::Play,
        _ => Change::Nothing,
    }
}
