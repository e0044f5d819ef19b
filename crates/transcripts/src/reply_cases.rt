//! Cases of replies without memory.

use case_texts::{Arguments, Fault, Told};
use rtsp_message::{Status, put_plain};

/// All statuses (RFC 2326, 11).
const STATUSES: [Status; 18] = [
    Status::Ok,
    Status::BadRequest,
    Status::Forbidden,
    Status::NotFound,
    Status::NotAcceptable,
    Status::RequestEntityTooLarge,
    Status::UnsupportedMediaType,
    Status::ParameterNotUnderstood,
    Status::NotEnoughBandwidth,
    Status::SessionNotFound,
    Status::MethodNotValidInThisState,
    Status::AggregateOperationNotAllowed,
    Status::OnlyAggregateOperationAllowed,
    Status::UnsupportedTransport,
    Status::NotImplemented,
    Status::ServiceUnavailable,
    Status::VersionNotSupported,
    Status::OptionNotSupported,
];

/// `plain CODE` or `plain CODE CSEQ`.
pub fn call_reply(
    word: &[u8],
    arguments: &mut Arguments<'_>,
    told: &mut Told,
) -> Result<(), Fault> {
    if word != b"plain".as_slice() {
        return Err(Fault::UnknownWord);
    }
    let status = status_of(arguments.number()?).ok_or(Fault::BadNumber)?;
    let cseq = if arguments.is_empty() {
        None
    } else {
        Some(arguments.number()?)
    };
    let mut out = [0; 128];
    let len = put_plain(&mut out, status, cseq);
    told.text.extend_from_slice(&out[..len])?;
    Ok(())
}

/// The status of a code.
fn status_of(code: u32) -> Option<Status> {
    for status in STATUSES {
        if u32::from(status.code()) == code {
            return Some(status);
        }
    }
    None
}
