//! Replies as a client reads them.
ghost use Rattle.std.specs.Prelude.{◌≡◌};
ghost use Rattle.std.specs.Option.{option_copied};
ghost use Rattle.rtsp_message.specs.Statuses.{status_of};

use crate::headers::{Headers, header_value};
use base_syntax::{Bytes, read_number};

/// A reply as it came (RFC 2326, 7). Its texts are bytes.
#[derive(Drop)]
pub struct Response {
    /// `RTSP/1.` and a number.
    pub version: Bytes,
    /// Its status, 0 to 999 (RFC 2326, 7.1.1).
    pub status: u16,
    /// What the server says of the status, or nothing.
    pub reason: Bytes,
    /// The number of its CSeq field, where that can be read (RFC 2326, 12.17).
    pub cseq: Option<u32>,
    pub headers: Headers,
    /// As many bytes as the Content-Length field announces, none without it (RFC 2326, 4.4).
    pub body: Bytes,
}

impl Response {
    ghost use Rattle.rtsp_message.specs.Headers.{value_of};

    /// The value of the first header field of that name, whatever the case of its ASCII letters.
    pub fn header(&self, name: &[u8]) -> Option<&Bytes>
        ensures { option_copied result ≡ value_of self.now.headers name.now }
    {
        header_value(&self.headers, name)
    }
}

/// The status that three digits write.
pub fn read_status(digits: &[u8]) -> u16
    ensures { result ≡ status_of digits.now }
{
    read_number(digits, 999).unwrap_or(0) as u16
}
