//! The lines of a head, and their parts.
ghost use Rattle.std.specs.Prelude.{◌≡◌, ◌≢◌, ◌++◌, ◌↔◌, ℕ, List, ◌∷◌, length, true, IfSome, IfNone, IsTrue};
ghost use Rattle.rtsp_message.specs.declared.headers.Header.{Header};
ghost use Rattle.base_syntax.specs.Numbers.{is_numeral as is_numeral_text};
ghost use Rattle.rtsp_message.specs.Lines.{IsStartLine, IsRequestLine, IsStatusLine, IsVersion, IsHeaderLine, IsFrontRun, BeginsOutside};

use crate::byte_class::ByteClass;
use crate::peer::Peer;
use base_syntax::{is_numeral, trim};

/// The parts of a request line (RFC 2326, 6.1), or in their places the version, the status and the reason of a status line (7.1).
#[derive(Clone, Copy)]
pub struct StartLine<'a> {
    pub method: &'a [u8],
    pub uri: &'a [u8],
    pub version: &'a [u8],
}

/// The parts of a header line (RFC 2326, 12).
#[derive(Clone, Copy)]
pub struct HeaderLine<'a> {
    pub name: &'a [u8],
    pub value: &'a [u8],
}

/// Reads the start line of a message from this peer. `None` where it is none.
pub fn read_start_line(peer: Peer, line: &[u8]) -> Option<StartLine<'_>>
    ensures some { IfSome result (λ r. IsStartLine peer line.now r.method.now r.uri.now r.version.now) }
    ensures none { IfNone result ((method uri version : List ℕ) → IsStartLine peer line.now method uri version → ⊥) }
{
    match peer {
        Peer::Client => read_request_line(line),
        Peer::Server => match read_status_line(line) {
            Some(parts) => Some(parts),
            None => read_request_line(line),
        },
    }
}

/// Reads a status line. `None` where it is none.
fn read_status_line(line: &[u8]) -> Option<StartLine<'_>>
    ensures some { IfSome result (λ r. IsStatusLine line.now r.method.now r.uri.now r.version.now) }
    ensures none { IfNone result ((version status reason : List ℕ) → IsStatusLine line.now version status reason → ⊥) }
{
    let (version, rest) = split_run(ByteClass::Visible, line)?;
    if !is_version(version) {
        return None;
    }
    let (_, rest) = split_run(ByteClass::Space, rest)?;
    let (status, text) = split_status(rest)?;
    Some(StartLine {
        method: version,
        uri: status,
        version: trim(text),
    })
}

/// Returns whether it is the version of a reply.
fn is_version(version: &[u8]) -> bool
    ensures { IsTrue result ↔ IsVersion version.now }
{
    match version.strip_prefix(b"RTSP/1.") {
        Some(number) => is_numeral(number),
        None => false,
    }
}

/// The three digits at the front, and what follows them.
fn split_status(bytes: &[u8]) -> Option<(&[u8], &[u8])>
    ensures some { IfSome result (λ r. (bytes.now ≡ r.0.now ++ r.1.now) × (length r.0.now ≡ 3) × (is_numeral_text r.0.now ≡ true)) }
    ensures none { IfNone result ((status text : List ℕ) → bytes.now ≡ status ++ text → length status ≡ 3 → is_numeral_text status ≡ true → ⊥) }
{
    if bytes.len() < 3 {
        return None;
    }
    let (status, text) = bytes.split_at(3);
    if is_numeral(status) {
        Some((status, text))
    } else {
        None
    }
}

/// Reads a request line. `None` where it is none.
fn read_request_line(line: &[u8]) -> Option<StartLine<'_>>
    ensures some { IfSome result (λ r. IsRequestLine line.now r.method.now r.uri.now r.version.now) }
    ensures none { IfNone result ((method uri version : List ℕ) → IsRequestLine line.now method uri version → ⊥) }
{
    let (method, rest) = split_run(ByteClass::Token, line)?;
    let (_, rest) = split_run(ByteClass::Space, rest)?;
    let (uri, rest) = split_run(ByteClass::Visible, rest)?;
    let (_, rest) = split_run(ByteClass::Space, rest)?;
    let (version, tail) = split_run(ByteClass::Visible, rest)?;
    if ByteClass::Blank.leading(tail) < tail.len() {
        return None;
    }
    Some(StartLine {
        method,
        uri,
        version,
    })
}

/// Reads a header line. `None` where it is none.
pub fn read_header_line(line: &[u8]) -> Option<HeaderLine<'_>>
    ensures some { IfSome result (λ r. IsHeaderLine line.now (record { name = r.name.now; value = r.value.now })) }
    ensures none { IfNone result ((header : Header) → IsHeaderLine line.now header → ⊥) }
{
    let (name, rest) = split_run(ByteClass::Token, line)?;
    let text = after_colon(rest)?;
    let value = trim(text);
    if ByteClass::Value.leading(value) < value.len() {
        return None;
    }
    Some(HeaderLine { name, value })
}

/// One or more bytes of the class at the front, and what follows them.
fn split_run(class: ByteClass, bytes: &[u8]) -> Option<(&[u8], &[u8])>
    ensures some { IfSome result (λ r. IsFrontRun class bytes.now r.0.now r.1.now) }
    ensures none { IfNone result (BeginsOutside class bytes.now) }
{
    let len = class.leading(bytes);
    if len == 0 {
        return None;
    }
    Some(bytes.split_at(len))
}

fn after_colon(bytes: &[u8]) -> Option<&[u8]>
    ensures some { IfSome result (λ text. bytes.now ≡ 58 ∷ text.now) }
    ensures none { IfNone result ((text : List ℕ) → bytes.now ≢ 58 ∷ text) }
{
    bytes.strip_prefix(b":")
}
