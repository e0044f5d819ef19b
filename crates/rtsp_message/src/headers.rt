//! Header fields, and looking one up.
ghost use Rattle.std.specs.Prelude.{◌≡◌, IfOk};
ghost use Rattle.std.specs.Option.{option_copied};
ghost use Rattle.rtsp_message.specs.Headers.{value_of};
ghost use Rattle.rtsp_message.specs.Lengths.{announced as announced_by, body_len as body_len_of};

use crate::MAX_BODY;
use base_syntax::{Bytes, Items, is_same_name, read_number};
use std::alloc::{AllocError, Global};

/// A header field (RFC 2326, 12).
#[derive(Drop)]
pub struct Header {
    pub name: Bytes,
    pub value: Bytes,
}

/// The header fields of a message, in order.
pub type Headers = Items<Header>;

/// The value of the first field of that name, whatever the case of its ASCII letters.
pub(crate) fn header_value<'a>(headers: &'a Headers, name: &[u8]) -> Option<&'a Bytes>
    ensures { option_copied result ≡ value_of headers.now name.now }
{
    let fields = headers.as_slice();
    for header in fields {
        if is_same_name(header.name.as_slice(), name) {
            return Some(&header.value);
        }
    }
    None
}

/// The length of the body that the first Content-Length field announces (RFC 2326, 12.14). `None` where there is none,
/// or its value is no number up to `MAX_BODY`.
pub(crate) fn announced(headers: &Headers) -> Option<u32>
    ensures { result ≡ announced_by headers.now }
{
    let value = header_value(headers, b"Content-Length")?;
    read_number(value.as_slice(), MAX_BODY as u32)
}

/// How many bytes the body has (RFC 2326, 4.4).
pub(crate) fn body_len(headers: &Headers) -> usize
    ensures { result ≡ body_len_of headers.now }
{
    announced(headers).unwrap_or(0) as usize
}

/// A copy of header fields.
pub(crate) fn copy_headers(alloc: Global, headers: &Headers) -> Result<Headers, AllocError>
    ensures { IfOk result (λ copied. copied ≡ headers.now) }
{
    let mut copied = Headers::empty(alloc);
    let fields = headers.as_slice();
    for header in fields {
        copied.push(Header {
            name: Bytes::from_slice(alloc, header.name.as_slice())?,
            value: Bytes::from_slice(alloc, header.value.as_slice())?,
        })?;
    }
    Ok(copied)
}
