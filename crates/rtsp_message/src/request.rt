//! Requests.
ghost use Rattle.std.specs.Prelude.{◌≡◌, IfOk};
ghost use Rattle.std.specs.Option.{option_copied};

use crate::headers::{Headers, copy_headers, header_value};
use crate::response::{Response, read_status};
use base_syntax::Bytes;
use std::alloc::{AllocError, Global};

/// A request as it came (RFC 2326, 6). Its texts are bytes.
pub struct Request {
    pub method: Bytes,
    pub uri: Bytes,
    pub version: Bytes,
    /// The number of its CSeq field, where that can be read (RFC 2326, 12.17).
    pub cseq: Option<u32>,
    pub headers: Headers,
    /// As many bytes as the Content-Length field announces, none without it (RFC 2326, 4.4).
    pub body: Bytes,
}

impl Drop for Request {
    fn drop(self) {
        let Request {
            method: _,
            uri: _,
            version: _,
            cseq: _,
            headers: _,
            body: _,
        } = self;
    }
}

impl Request {
    ghost use Rattle.rtsp_message.specs.Headers.{value_of};
    ghost use Rattle.rtsp_message.specs.ServerStream.{response_of};

    /// The value of the first header field of that name, whatever the case of its ASCII letters.
    pub fn header(&self, name: &[u8]) -> Option<&Bytes>
        ensures { option_copied result ≡ value_of self.now.headers name.now }
    {
        header_value(&self.headers, name)
    }

    /// A copy of it. The only error is out of memory.
    pub fn copy(&self, alloc: Global) -> Result<Request, AllocError>
        ensures { IfOk result (λ copied. copied ≡ self.now) }
    {
        Ok(Request {
            method: Bytes::from_slice(alloc, self.method.as_slice())?,
            uri: Bytes::from_slice(alloc, self.uri.as_slice())?,
            version: Bytes::from_slice(alloc, self.version.as_slice())?,
            cseq: self.cseq,
            headers: copy_headers(alloc, &self.headers)?,
            body: Bytes::from_slice(alloc, self.body.as_slice())?,
        })
    }

    /// The reply that it is, if its start line is a status line.
    pub(crate) fn into_response(self) -> Response
        ensures { result ≡ response_of self }
    {
        let Request {
            method,
            uri,
            version,
            cseq,
            headers,
            body,
        } = self;
        Response {
            version: method,
            status: read_status(uri.as_slice()),
            reason: version,
            cseq,
            headers,
            body,
        }
    }
}
