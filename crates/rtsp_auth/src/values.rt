//! Values of parameters: quoted strings (RFC 7235, 2.1; RFC 7230, 3.2.6) and texts without quotes.
ghost use Rattle.std.specs.Prelude.{◌≡◌, IfOk, map};
ghost use Rattle.std.specs.List.{list_all};
ghost use Rattle.rtsp_auth.specs.Values.{bare_in, closed, is_bare_byte, mark_of, unquoted, value_in};

use base_syntax::{Bytes, Items};
use std::alloc::{AllocError, Global};

/// What a byte after an opening quote is.
#[derive(Clone, Copy, Debug, PartialEq, Eq, Drop)]
enum Mark {
    /// A control character, which isn't allowed.
    Control,
    /// The closing quote.
    Close,
    /// A backslash: the next byte is one of the value.
    Escape,
    /// A byte of the value.
    Text,
}

/// Returns what a byte is.
fn mark_of(is_escaped: bool, byte: u8) -> Mark
    ensures { result ≡ mark_of is_escaped byte }
{
    if byte.is_ascii_control() {
        Mark::Control
    } else if is_escaped {
        Mark::Text
    } else if byte == b'"' {
        Mark::Close
    } else if byte == b'\\' {
        Mark::Escape
    } else {
        Mark::Text
    }
}

/// Returns a value whose closing quote was read, if nothing is after it.
fn closed(value: Vec<u8>, behind: &[u8]) -> Option<Bytes>
    ensures { result ≡ closed value.items behind.now }
{
    if behind.is_empty() {
        Some(Items::new(value))
    } else {
        None
    }
}

/// Returns the value of a quoted string, from what is after its opening quote.
fn read_quoted(alloc: Global, text: &[u8]) -> Result<Option<Bytes>, AllocError>
    ensures { IfOk result (λ value. value ≡ unquoted text.now) }
{
    let mut value = Vec::new(alloc);
    let mut is_escaped = false;
    let mut rest = text;
    while let [byte, behind @ ..] = rest {
        match mark_of(is_escaped, *byte) {
            Mark::Control => return Ok(None),
            Mark::Close => return Ok(closed(value, behind)),
            Mark::Escape => is_escaped = true,
            Mark::Text => {
                value.push(*byte)?;
                is_escaped = false;
            }
        }
        rest = behind;
    }
    Ok(None)
}

/// Returns whether a byte may be in a value without quotes.
fn is_bare_byte(byte: u8) -> bool
    ensures { result ≡ is_bare_byte byte }
{
    !byte.is_ascii_control() && byte != b'"' && byte != b',' && byte != b'='
}

/// Returns whether each byte may be in a value without quotes.
fn is_bare(text: &[u8]) -> bool
    ensures { result ≡ list_all is_bare_byte text.now }
{
    text.iter().all(|byte| is_bare_byte(*byte))
}

/// Returns a value without quotes.
fn read_bare(alloc: Global, text: &[u8]) -> Result<Option<Bytes>, AllocError>
    ensures { IfOk result (λ value. value ≡ bare_in text.now) }
{
    if is_bare(text) {
        Ok(Some(Bytes::from_slice(alloc, text)?))
    } else {
        Ok(None)
    }
}

/// Returns the value that a text after an equals sign spells: a quoted string without control characters, or a text without quotes,
/// commas, equals signs and control characters. `None` for another text.
pub(crate) fn read_value(alloc: Global, text: &[u8]) -> Result<Option<Bytes>, AllocError>
    ensures { IfOk result (λ value. value ≡ value_in text.now) }
{
    match text {
        [] => Ok(None),
        [b'"', behind @ ..] => read_quoted(alloc, behind),
        _ => read_bare(alloc, text),
    }
}
