//! The header of version 1: a line of text (2.1).
ghost use Rattle.std.specs.Prelude.{◌≡◌, ◌++◌};
ghost use Rattle.proxy_header.specs.Lines.{words as words_text};
ghost use Rattle.proxy_header.specs.Readings.{AreWordsOf, IsReadLine};

use crate::beginning::{Start, start_of};
use crate::fault::HeaderFault;
use crate::fields::client_of;
use crate::header::{Header, Reading};
use crate::limits::MOST_LINE;
use memchr::memmem;

/// The protocols that a line names.
#[derive(Clone, Copy, Debug, PartialEq, Eq, Drop)]
pub(crate) enum Protocol {
    Tcp4,
    Tcp6,
    Unknown,
}

/// The words with which a line begins, and the bytes after them.
#[derive(Clone, Copy, Drop)]
enum Words<'a> {
    /// They are there.
    Whole(Protocol, &'a [u8]),
    /// They may come.
    Begun,
    /// The bytes begin with others.
    Other,
}

impl Protocol {
    /// Returns the words with which its lines begin.
    fn words(self) -> &'static [u8]
        ensures { result.now ≡ words_text self }
    {
        match self {
            Protocol::Tcp4 => b"PROXY TCP4 ",
            Protocol::Tcp6 => b"PROXY TCP6 ",
            Protocol::Unknown => b"PROXY UNKNOWN",
        }
    }
}

/// Reads the line at the front of these bytes.
pub(crate) fn read_line(bytes: &[u8]) -> Reading
    ensures { IsReadLine bytes.now result }
{
    match words_of(bytes) {
        Words::Whole(protocol, rest) => read_after(protocol, rest),
        Words::Begun => Reading::NeedMore,
        Words::Other => Reading::Bad(HeaderFault::NoHeader),
    }
}

/// Returns the words with which these bytes begin.
fn words_of(bytes: &[u8]) -> Words<'_>
    ensures { AreWordsOf bytes.now result }
{
    let tcp4 = start_of(bytes, Protocol::Tcp4.words());
    let tcp6 = start_of(bytes, Protocol::Tcp6.words());
    let unknown = start_of(bytes, Protocol::Unknown.words());
    match (tcp4, tcp6, unknown) {
        (Start::Whole(rest), _, _) => Words::Whole(Protocol::Tcp4, rest),
        (_, Start::Whole(rest), _) => Words::Whole(Protocol::Tcp6, rest),
        (_, _, Start::Whole(rest)) => Words::Whole(Protocol::Unknown, rest),
        (Start::Other, Start::Other, Start::Other) => Words::Other,
        _ => Words::Begun,
    }
}

/// Reads the rest of a line of a protocol, after its words.
fn read_after(protocol: Protocol, rest: &[u8]) -> Reading
    ensures { IsReadLine (words_text protocol ++ rest.now) result }
{
    let before = protocol.words().len();
    let Some(end) = memmem::find(rest, b"\r\n") else {
        if before + rest.len() < MOST_LINE {
            return Reading::NeedMore;
        }
        return Reading::Bad(HeaderFault::LineTooLong);
    };
    let len = before + end + 2;
    if len > MOST_LINE {
        return Reading::Bad(HeaderFault::LineTooLong);
    }
    match client_of(protocol, &rest[..end]) {
        Some(client) => Reading::Header(Header { len, client }),
        None => Reading::Bad(HeaderFault::BadLine),
    }
}
