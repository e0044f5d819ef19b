//! Escapes: `\t`, `\r`, `\n`, `\s` (a space), `\\`, `\xHH` (a byte) and `\{N TEXT}` (a text N times).

ghost use Rattle.std.specs.Prelude.{◌<◌, IfSome};

use crate::fault::Fault;
use base_syntax::{cut, read_number};
use std::alloc::Global;

/// How a text ends.
#[derive(Clone, Copy, Debug, PartialEq, Eq)]
pub(crate) enum Ending {
    Plain,
    /// With a single backslash.
    Backslash,
}

/// Adds the text that this is with its escapes resolved.
pub(crate) fn resolve(out: &mut Vec<u8>, text: &[u8]) -> Result<Ending, Fault> {
    let mut rest = text;
    for _ in 0..=text.len() {
        let (plain, behind) = cut(rest, b'\\');
        out.extend_from_slice(plain)?;
        rest = match behind {
            None => return Ok(Ending::Plain),
            Some([]) => return Ok(Ending::Backslash),
            Some([b'{', repeated @ ..]) => resolve_repeated(out, repeated)?,
            Some(escape) => resolve_byte(out, escape)?,
        };
    }
    Ok(Ending::Plain)
}

/// The text that this is with its escapes resolved, which doesn't end with a single backslash.
pub fn resolved(alloc: Global, text: &[u8]) -> Result<Vec<u8>, Fault> {
    let mut out = Vec::new(alloc);
    match resolve(&mut out, text)? {
        Ending::Plain => Ok(out),
        Ending::Backslash => Err(Fault::BadEscape),
    }
}

/// Adds what `N TEXT}` at the front of a text stands for, and answers what stands after it.
fn resolve_repeated<'a>(out: &mut Vec<u8>, text: &'a [u8]) -> Result<&'a [u8], Fault> {
    let (repeated, Some(behind)) = cut(text, b'}') else {
        return Err(Fault::BadEscape);
    };
    let (times, Some(text)) = cut(repeated, b' ') else {
        return Err(Fault::BadEscape);
    };
    let times = read_number(times, u32::MAX).ok_or(Fault::BadEscape)?;
    let once = resolved_bytes(*out.allocator(), text)?;
    for _ in 0..times {
        out.extend_from_slice(&once)?;
    }
    Ok(behind)
}

/// The text that this is with its escapes resolved, none of which repeats another text.
fn resolved_bytes(alloc: Global, text: &[u8]) -> Result<Vec<u8>, Fault> {
    let mut out = Vec::new(alloc);
    let mut rest = text;
    for _ in 0..=text.len() {
        let (plain, behind) = cut(rest, b'\\');
        out.extend_from_slice(plain)?;
        rest = match behind {
            None => return Ok(out),
            Some(escape) => resolve_byte(&mut out, escape)?,
        };
    }
    Ok(out)
}

/// Adds the byte that an escape stands for, without its backslash, and answers what stands after it.
fn resolve_byte<'a>(out: &mut Vec<u8>, escape: &'a [u8]) -> Result<&'a [u8], Fault> {
    let (byte, behind) = match escape {
        [b't', behind @ ..] => (b'\t', behind),
        [b'r', behind @ ..] => (b'\r', behind),
        [b'n', behind @ ..] => (b'\n', behind),
        [b's', behind @ ..] => (b' ', behind),
        [b'\\', behind @ ..] => (b'\\', behind),
        [b'x', high, low, behind @ ..] => (read_byte(*high, *low)?, behind),
        _ => return Err(Fault::BadEscape),
    };
    out.push(byte)?;
    Ok(behind)
}

/// The byte that two hexadecimal digits write.
fn read_byte(high: u8, low: u8) -> Result<u8, Fault> {
    let high = hex_digit(high).ok_or(Fault::BadEscape)?;
    let low = hex_digit(low).ok_or(Fault::BadEscape)?;
    Ok(16 * high + low)
}

/// The value of a hexadecimal digit.
fn hex_digit(digit: u8) -> Option<u8>
    ensures { IfSome result (λ value. value < 16) }
{
    match digit {
        b'0'..=b'9' => Some(digit - b'0'),
        b'a'..=b'f' => Some(digit - b'a' + 10),
        b'A'..=b'F' => Some(digit - b'A' + 10),
        _ => None,
    }
}

/// The number that eight hexadecimal digits write.
pub(crate) fn read_word(text: &[u8]) -> Result<u32, Fault> {
    if text.len() != 8 {
        return Err(Fault::BadNumber);
    }
    let mut word: u32 = 0;
    for digit in text {
        let value = hex_digit(*digit).ok_or(Fault::BadNumber)?;
        word = word.wrapping_mul(16) | u32::from(value);
    }
    Ok(word)
}
