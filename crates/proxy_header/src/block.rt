//! The header of version 2: a block of bytes (2.2).
ghost use Rattle.std.specs.Prelude.{◌++◌, MatchOption};
ghost use Rattle.proxy_header.specs.Blocks.{IsContent, signature};
ghost use Rattle.proxy_header.specs.Readings.{IsNoContent, IsReadBlock, IsReadBody};

use crate::beginning::{Start, start_of};
use crate::body::{Content, client_of};
use crate::fault::HeaderFault;
use crate::header::{Header, Reading};
use crate::limits::{BLOCK_HEAD, MOST_HEADER};

/// What each block begins with.
const SIGNATURE: [u8; 12] = *b"\r\n\r\n\0\r\nQUIT\n";

/// The version in the high half of a byte, and the command in its low one: LOCAL, or PROXY.
const LOCAL: u8 = 0x20;

const PROXY: u8 = 0x21;

/// Reads the block at the front of these bytes.
pub(crate) fn read_block(bytes: &[u8]) -> Reading
    ensures { IsReadBlock bytes.now result }
{
    match start_of(bytes, &SIGNATURE) {
        Start::Whole(rest) => read_behind(rest),
        Start::Begun => Reading::NeedMore,
        Start::Other => Reading::Bad(HeaderFault::NoHeader),
    }
}

/// Reads the rest of a block, after its signature.
fn read_behind(rest: &[u8]) -> Reading
    ensures { IsReadBlock (signature ++ rest.now) result }
{
    let [command, rest @ ..] = rest else {
        return Reading::NeedMore;
    };
    if *command != LOCAL && *command != PROXY {
        return Reading::Bad(HeaderFault::BadCommand);
    }
    let [family, rest @ ..] = rest else {
        return Reading::NeedMore;
    };
    match content_of(*command, *family) {
        Some(content) => read_body(content, rest),
        None => Reading::Bad(HeaderFault::BadFamily),
    }
}

/// Returns what a block of a command, a family and a protocol contains.
fn content_of(command: u8, family: u8) -> Option<Content>
    ensures { MatchOption result (IsNoContent command family) (IsContent command family) }
{
    match (command, family) {
        (LOCAL, _) | (PROXY, 0x00) => Some(Content::Skipped { least: 0 }),
        (PROXY, 0x11) => Some(Content::Tcp4),
        (PROXY, 0x21) => Some(Content::Tcp6),
        (PROXY, 0x12) => Some(Content::Skipped { least: 12 }),
        (PROXY, 0x22) => Some(Content::Skipped { least: 36 }),
        (PROXY, 0x31 | 0x32) => Some(Content::Skipped { least: 216 }),
        _ => None,
    }
}

/// Reads the length of a block and what comes after it.
fn read_body(content: Content, rest: &[u8]) -> Reading
    ensures { IsReadBody content rest.now result }
{
    let [high, rest @ ..] = rest else {
        return Reading::NeedMore;
    };
    // Too long, whatever the low byte is.
    if BLOCK_HEAD + 256 * usize::from(*high) > MOST_HEADER {
        return Reading::Bad(HeaderFault::TooLong);
    }
    let [low, body @ ..] = rest else {
        return Reading::NeedMore;
    };
    let len = usize::from(u16::from_be_bytes([*high, *low]));
    if BLOCK_HEAD + len > MOST_HEADER {
        return Reading::Bad(HeaderFault::TooLong);
    }
    if len < content.least() {
        return Reading::Bad(HeaderFault::TooShort);
    }
    if body.len() < len {
        return Reading::NeedMore;
    }
    Reading::Header(Header {
        len: BLOCK_HEAD + len,
        client: client_of(content, &body[..len]),
    })
}
