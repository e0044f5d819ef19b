//! The head of a message, read from the front of a stream.
ghost use Rattle.std.specs.Prelude.{◌≡◌, ◌<◌, None, length, take, IfOk, MatchResult};
ghost use Rattle.rtsp_message.specs.declared.headers.Header.{Header};
ghost use Rattle.rtsp_message.specs.Lines.{IsHeaderLine};
ghost use Rattle.rtsp_message.specs.Heads.{GoesOn, IsBadHeader};
ghost use Rattle.rtsp_message.specs.Headers.{cseq_of};
ghost use Rattle.rtsp_message.specs.Lengths.{field_fault, length_fault as fault_in_length};
ghost use Rattle.rtsp_message.specs.Fronts.{IsHeadFront, IsBlock};
ghost use Rattle.rtsp_message.specs.Limits.{head_limit};

use crate::fault::Fault;
use crate::headers::{Header, Headers, announced, header_value};
use crate::lines::{StartLine, read_header_line, read_start_line};
use crate::peer::Peer;
use crate::request::Request;
use crate::{MAX_BODY, MAX_HEAD};
use base_syntax::{Bytes, first_line, is_numeral, is_same_name, read_number};
use std::alloc::{AllocError, Global};

/// What stands at the front of a stream, where a message begins.
#[derive(Drop)]
pub enum HeadFront {
    /// A head of `len` bytes, as a request that has no body yet.
    Whole { request: Request, len: usize },
    Bad(Fault),
    /// The beginning of a head, at most.
    Unfinished,
}

/// What stands after a start line.
#[derive(Drop)]
pub enum HeaderBlock {
    /// Header fields and the empty line that ends a head, `len` bytes in all.
    Ended { headers: Headers, len: usize },
    Bad(Fault),
    Unfinished,
}

/// Reads the head of a message from this peer at the front of the bytes (RFC 2326, 6 and 7). It looks at no more than the first
/// `MAX_HEAD` bytes.
pub fn read_head(alloc: Global, peer: Peer, bytes: &[u8]) -> Result<HeadFront, AllocError>
    ensures { IfOk result (IsHeadFront peer bytes.now) }
{
    let window = head_window(bytes);
    let Some((line, rest)) = first_line(window) else {
        return Ok(unfinished(peer, bytes));
    };
    let Some(start) = read_start_line(peer, line) else {
        return Ok(HeadFront::Bad(Fault::BadLine));
    };
    match read_headers(alloc, rest)? {
        HeaderBlock::Ended { headers, len } => {
            let len = window.len() - rest.len() + len;
            let request = new_request(alloc, start, headers)?;
            Ok(HeadFront::Whole { request, len })
        }
        HeaderBlock::Bad(fault) => Ok(HeadFront::Bad(fault)),
        HeaderBlock::Unfinished => Ok(unfinished(peer, bytes)),
    }
}

/// The bytes that a head may have.
fn head_window(bytes: &[u8]) -> &[u8]
    ensures { result.now ≡ take head_limit bytes.now }
{
    if bytes.len() < MAX_HEAD {
        bytes
    } else {
        &bytes[..MAX_HEAD]
    }
}

/// A head that goes on: more of it may come, unless it is too long already.
fn unfinished(peer: Peer, bytes: &[u8]) -> HeadFront
    requires { GoesOn peer (take head_limit bytes.now) }
    ensures { IsHeadFront peer bytes.now result }
{
    let is_long = bytes.len() >= MAX_HEAD;
    if is_long {
        HeadFront::Bad(Fault::HeadTooLong)
    } else {
        HeadFront::Unfinished
    }
}

/// Reads header lines up to an empty line.
fn read_headers(alloc: Global, text: &[u8]) -> Result<HeaderBlock, AllocError>
    ensures { IfOk result (IsBlock text.now) }
{
    let mut headers = Headers::empty(alloc);
    let mut rest = text;
    while let Some((line, after)) = first_line(rest) {
        if line.is_empty() {
            let len = text.len() - after.len();
            return Ok(HeaderBlock::Ended { headers, len });
        }
        match read_header(alloc, &headers, line)? {
            Ok(header) => headers.push(header)?,
            Err(fault) => return Ok(HeaderBlock::Bad(fault)),
        }
        rest = after;
    }
    Ok(HeaderBlock::Unfinished)
}

/// Reads the header field of a line that isn't empty, or says what is wrong with it after the fields before.
fn read_header(
    alloc: Global,
    before: &Headers,
    line: &[u8],
) -> Result<Result<Header, Fault>, AllocError>
    requires { 0 < length line.now }
    ensures { IfOk result (λ read. MatchResult read (λ header. IsHeaderLine line.now header × (field_fault before.now header ≡ None)) (IsBadHeader before.now line.now)) }
{
    let Some(parts) = read_header_line(line) else {
        return Ok(Err(Fault::BadHeader));
    };
    if is_same_name(parts.name, b"Content-Length") {
        if let Some(fault) = length_fault(announced(before), parts.value) {
            return Ok(Err(fault));
        }
    }
    let name = Bytes::from_slice(alloc, parts.name)?;
    let value = Bytes::from_slice(alloc, parts.value)?;
    Ok(Ok(Header { name, value }))
}

/// What is wrong with the value of a Content-Length field, where a field before announced this length.
pub fn length_fault(before: Option<u32>, value: &[u8]) -> Option<Fault>
    ensures { result ≡ fault_in_length before value.now }
{
    if !is_numeral(value) {
        return Some(Fault::BadLength);
    }
    let Some(len) = read_number(value, MAX_BODY as u32) else {
        return Some(Fault::BodyTooLong);
    };
    match before {
        Some(announced) if announced != len => Some(Fault::BadLength),
        _ => None,
    }
}

fn new_request(alloc: Global, start: StartLine<'_>, headers: Headers) -> Result<Request, AllocError>
    ensures method { IfOk result (λ request. request.method ≡ start.entry.method.now) }
    ensures uri { IfOk result (λ request. request.uri ≡ start.entry.uri.now) }
    ensures version { IfOk result (λ request. request.version ≡ start.entry.version.now) }
    ensures cseq { IfOk result (λ request. request.cseq ≡ cseq_of headers) }
    ensures headers { IfOk result (λ request. request.headers ≡ headers) }
{
    let cseq = read_cseq(&headers);
    let method = Bytes::from_slice(alloc, start.method)?;
    let uri = Bytes::from_slice(alloc, start.uri)?;
    let version = Bytes::from_slice(alloc, start.version)?;
    Ok(Request {
        method,
        uri,
        version,
        cseq,
        headers,
        body: Bytes::empty(alloc),
    })
}

/// The number of a request (RFC 2326, 12.17).
fn read_cseq(headers: &Headers) -> Option<u32>
    ensures { result ≡ cseq_of headers.now }
{
    let text = header_value(headers, b"CSeq")?;
    read_number(text.as_slice(), u32::MAX)
}
