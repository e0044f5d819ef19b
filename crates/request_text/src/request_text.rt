//! Requests that a client sends, and their text.
ghost use Rattle.std.specs.Prelude.{◌≡◌, ◌++◌, ◌≤◌, length, take, IfErr, OnOk, OnErr};
ghost use Rattle.request_text.specs.Faults.{IsFault, IsSendable};
ghost use Rattle.request_text.specs.Texts.{first_line, head_text, message_text, request_of};

use crate::asked::Asked;
use crate::checks::check_parts;
use crate::fault::RequestFault;
use crate::fields::write_fields;
use rtsp_message::MAX_HEAD;
use std::alloc::AllocError;

/// A request that a client sends (RFC 2326, 6). Beside what is here it has the field User-Agent.
#[derive(Clone, Copy, Debug, PartialEq, Eq, Drop)]
pub struct RequestText<'a> {
    pub asked: Asked<'a>,
    /// One or more bytes of visible ASCII. A path must be that of an absolute URI (RFC 2326, 6.1), which is not checked.
    pub uri: &'a [u8],
    /// The number of the request, its field CSeq (RFC 2326, 12.17).
    pub number: u32,
    /// The value of the field Session, if the request has it (RFC 2326, 12.37).
    pub session: Option<&'a [u8]>,
    /// The value of the field Authorization, if the request has it (RFC 2326, 12.5).
    pub authorization: Option<&'a [u8]>,
}

/// Appends the text of a request: its request line, its fields, an empty line and its body.
///
/// An error says what can't be sent, or that memory was refused. After it, `out` is as before.
pub fn put_request(out: &mut Vec<u8>, request: &RequestText<'_>) -> Result<(), RequestFault>
    ensures ok { OnOk result (out.new.items ≡ out.old.items ++ message_text (request_of request.now)) }
    ensures sendable { OnOk result (IsSendable request.now) }
    ensures fault { IfErr result (λ fault. IsFault request.now fault) }
    ensures err { OnErr result (out.new.items ≡ out.old.items) }
{
    check_parts(request)?;
    let before = out.len();
    let written = write_request(out, request);
    if written.is_err() {
        out.truncate(before);
    }
    written
}

/// Appends the text of a request whose parts can be sent, or a part of the text if the head is too long or memory is refused.
fn write_request(out: &mut Vec<u8>, request: &RequestText<'_>) -> Result<(), RequestFault>
    ensures text { OnOk result (out.new.items ≡ out.old.items ++ message_text (request_of request.now)) }
    ensures short { OnOk result (length (head_text (request_of request.now)) ≤ 8192) }
    ensures fault { IfErr result (λ fault. IsFault request.now fault) }
    ensures kept { OnErr result (take (length out.old.items) out.new.items ≡ out.old.items) }
{
    let before = out.len();
    write_head(out, request)?;
    if out.len() - before > MAX_HEAD {
        return Err(RequestFault::HeadTooLong);
    }
    out.extend_from_slice(request.asked.body())?;
    Ok(())
}

/// Appends the head of a request, its empty line included, or a part of it if memory is refused.
fn write_head(out: &mut Vec<u8>, request: &RequestText<'_>) -> Result<(), AllocError>
    ensures text { OnOk result (out.new.items ≡ out.old.items ++ head_text (request_of request.now)) }
    ensures kept { OnErr result (take (length out.old.items) out.new.items ≡ out.old.items) }
{
    write_first_line(out, request)?;
    write_fields(out, request)?;
    out.extend_from_slice(b"\r\n")
}

/// Appends the request line, or a part of it if memory is refused.
fn write_first_line(out: &mut Vec<u8>, request: &RequestText<'_>) -> Result<(), AllocError>
    ensures text { OnOk result (out.new.items ≡ out.old.items ++ first_line (request_of request.now)) }
    ensures kept { OnErr result (take (length out.old.items) out.new.items ≡ out.old.items) }
{
    out.extend_from_slice(request.asked.method().name())?;
    out.extend_from_slice(b" ")?;
    out.extend_from_slice(request.uri)?;
    out.extend_from_slice(b" RTSP/1.0\r\n")
}
