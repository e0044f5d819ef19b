//! The lines of a text.
ghost use Rattle.std.specs.Prelude.{◌≤◌, length};

use crate::fault::Fault;
use base_syntax::{cut, read_number};

/// A line of a text.
#[derive(Drop)]
pub(crate) enum Line<'a> {
    /// An empty line, or a comment.
    Nothing,
    /// A case begins: its kind, and what it is called with that.
    Case { kind: &'a [u8], title: &'a [u8] },
    /// A part begins that cases can use: its name.
    Part(&'a [u8]),
    /// The lines of a part are to be read: its name.
    Use(&'a [u8]),
    /// The case or the part ends.
    End,
    /// A line goes in, by a connection or without one.
    Input { from: Option<u32>, text: &'a [u8] },
    /// A line has to come out, to a connection or without one.
    Output { to: Option<u32>, text: &'a [u8] },
    /// A fact has to be told.
    Fact(&'a [u8]),
    /// A call of the case's kind.
    Call(&'a [u8]),
}

/// Reads a line, without its LF.
pub(crate) fn read_line(line: &[u8]) -> Result<Line<'_>, Fault> {
    let (digits, rest) = line.split_at(digit_count(line));
    match rest {
        [b'>', text @ ..] => Ok(Line::Input {
            from: connection_of(digits)?,
            text: without_space(text),
        }),
        [b'<', text @ ..] => Ok(Line::Output {
            to: connection_of(digits)?,
            text: without_space(text),
        }),
        _ => Ok(read_other(line)),
    }
}

/// Reads a line that neither goes in nor comes out.
fn read_other(line: &[u8]) -> Line<'_> {
    match line {
        [] => Line::Nothing,
        [b'#', ..] => Line::Nothing,
        [b'=', text @ ..] => Line::Fact(without_space(text)),
        b"end" => Line::End,
        [b'c', b'a', b's', b'e', b' ', title @ ..] => Line::Case {
            kind: cut(title, b' ').0,
            title,
        },
        [b'p', b'a', b'r', b't', b' ', name @ ..] => Line::Part(name),
        [b'u', b's', b'e', b' ', name @ ..] => Line::Use(name),
        _ => Line::Call(line),
    }
}

/// How many digits stand at the front of a line.
fn digit_count(line: &[u8]) -> usize
    ensures { result ≤ length line.now }
{
    for (place, byte) in line.iter().enumerate() {
        if !byte.is_ascii_digit() {
            return place;
        }
    }
    line.len()
}

/// The connection that digits name, if there are any.
fn connection_of(digits: &[u8]) -> Result<Option<u32>, Fault> {
    if digits.is_empty() {
        return Ok(None);
    }
    let number = read_number(digits, u32::MAX).ok_or(Fault::BadNumber)?;
    Ok(Some(number))
}

/// A text without the space at its front, if there is one.
fn without_space(text: &[u8]) -> &[u8] {
    text.strip_prefix(b" ").unwrap_or(text)
}
