//! What a request is answered (RFC 2326, 7): `accepting` has the replies of status 200, among them those of `setup` and
//! `playing`, each with what it changes, and `refusing` those that tell which check isn't passed. Here stands what they share.
ghost use Rattle.std.specs.Prelude.{◌≡◌, IfOk};
ghost use Rattle.std.specs.Option.{option_copied};
ghost use Rattle.rtsp_message.specs.declared.status.Status.TheVariants.{Ok};
ghost use Rattle.session_state.specs.Replies.{told_to};
ghost use Rattle.transport_header.specs.Session.{identifier_text};

mod accepting;
mod playing;
mod refusing;
mod setup;

use crate::session::Session;
use base_syntax::Bytes;
use rtsp_message::{Fields, Reply, Request, Status};
use std::alloc::{AllocError, Global};
use transport_header::put_session;

/// The identifier of a session (RFC 2326, 3.4).
pub(crate) fn identifier(alloc: Global, number: u32, word: u32) -> Result<Bytes, AllocError>
    ensures { IfOk result (λ text. text ≡ identifier_text number word) }
{
    let mut text = Vec::new(alloc);
    put_session(&mut text, number, word)?;
    Ok(Bytes::new(text))
}

/// The identifier of a session, where a request has a Session field (RFC 2326, 12.37).
pub(crate) fn told_session(
    alloc: Global,
    request: &Request,
    session: Option<&Session>,
) -> Result<Option<Bytes>, AllocError>
    ensures { IfOk result (λ told. told ≡ told_to request.now (option_copied session.entry)) }
{
    if request.header(b"Session").is_none() {
        return Ok(None);
    }
    let Some(session) = session else {
        return Ok(None);
    };
    Ok(Some(identifier(alloc, session.number, session.word)?))
}

/// A reply that accepts a request.
pub(crate) fn accepting_reply(request: &Request, fields: Fields, body: Bytes) -> Reply
    ensures { result ≡ record { status = Ok; cseq = request.now.cseq; fields = fields; body = body } }
{
    Reply {
        status: Status::Ok,
        cseq: request.cseq,
        fields,
        body,
    }
}

/// A reply that accepts a request with these fields, and with the Session field where the request has it.
pub(crate) fn telling_reply(
    alloc: Global,
    request: &Request,
    session: Option<&Session>,
    fields: Fields,
    body: Bytes,
) -> Result<Reply, AllocError>
    ensures { IfOk result (λ reply. reply ≡ record { status = Ok; cseq = request.now.cseq; fields = record fields { session = told_to request.now (option_copied session.entry) }; body = body }) }
{
    let told = Fields {
        session: told_session(alloc, request, session)?,
        ..fields
    };
    Ok(accepting_reply(request, told, body))
}
