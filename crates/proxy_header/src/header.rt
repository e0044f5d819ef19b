//! What the first bytes of a connection are.
ghost use Rattle.std.specs.Prelude.{◌≡◌, ◌<◌, length};
ghost use Rattle.proxy_header.specs.Headers.{Begins, BeginsNone, IsHeaderOf, HasNoHeader, OnHeader, OnBad};

use crate::block::read_block;
use crate::fault::HeaderFault;
use crate::line::read_line;
use std::net::SocketAddr;

/// A header.
#[derive(Clone, Copy, Debug, PartialEq, Eq, Drop)]
pub struct Header {
    /// How many bytes it has. The bytes after them are the client's.
    pub len: usize,
    /// The client's address and port. An IPv4-mapped IPv6 address is its IPv4 address (RFC 4291, 2.5.5.2). `None` if the connection's
    /// own address is to be used: the header is LOCAL, UNKNOWN, or of a family that isn't TCP over IP.
    pub client: Option<SocketAddr>,
}

/// What the first bytes of a connection are.
#[derive(Clone, Copy, Debug, PartialEq, Eq, Drop)]
pub enum Reading {
    /// They may begin a header, which needs more bytes.
    NeedMore,
    /// They begin with a header.
    Header(Header),
    /// They begin with no header, whatever comes after them.
    Bad(HeaderFault),
}

/// Reads the header at the front of a connection's bytes, of which these have come so far. Fewer than 2,048 bytes need more.
pub fn read_header(bytes: &[u8]) -> Reading
    ensures header { OnHeader result (IsHeaderOf bytes.now) }
    ensures bad { OnBad result (BeginsNone bytes.now) }
    ensures need_more { result ≡ Reading.NeedMore → Begins bytes.now }
    ensures none_yet { result ≡ Reading.NeedMore → HasNoHeader bytes.now }
    ensures few { result ≡ Reading.NeedMore → length bytes.now < 2048 }
{
    match bytes.first() {
        None => Reading::NeedMore,
        Some(&b'P') => read_line(bytes),
        Some(_) => read_block(bytes),
    }
}
