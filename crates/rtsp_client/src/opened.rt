//! The session that a reply to SETUP opens (RFC 2326, 12.37).
ghost use Rattle.std.specs.Prelude.{IfOk};
ghost use Rattle.std.specs.Option.{option_copied};
ghost use Rattle.rtsp_client.specs.Sessions.{IsOpenedBy};

use crate::limits::MOST_SESSION_BYTES;
use base_syntax::Bytes;
use std::alloc::{AllocError, Global};
use transport_header::{read_session, read_session_timeout};

/// Why a reply to SETUP opens no session.
#[derive(Clone, Copy, Debug, PartialEq, Eq, Drop)]
pub enum SessionFault {
    /// It has no Session header, or none with an identifier.
    Missing,
    /// The identifier has more than 512 bytes.
    TooLong,
}

/// A session of a server.
#[derive(Drop)]
pub struct Opened {
    /// Its identifier, 1 to 512 bytes.
    pub id: Bytes,
    /// After how many seconds without a request the server ends it. `None` if it doesn't say, or nothing that can be read.
    pub timeout: Option<u32>,
}

/// Returns the session that a reply with this Session header opens. The outer error is out of memory.
pub(crate) fn opened_by(
    alloc: Global,
    header: Option<&[u8]>,
) -> Result<Result<Opened, SessionFault>, AllocError>
    ensures { IfOk result (IsOpenedBy (option_copied header.entry)) }
{
    let Some(text) = header else {
        return Ok(Err(SessionFault::Missing));
    };
    let id = read_session(text);
    if id.is_empty() {
        return Ok(Err(SessionFault::Missing));
    }
    if id.len() > MOST_SESSION_BYTES {
        return Ok(Err(SessionFault::TooLong));
    }
    Ok(Ok(Opened {
        id: Bytes::from_slice(alloc, id)?,
        timeout: read_session_timeout(text),
    }))
}
