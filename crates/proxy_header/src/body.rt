//! What a block of version 2 contains (2.2).
ghost use Rattle.std.specs.Prelude.{◌≡◌, ◌≤◌, ◌+◌, ◌*◌, length, slice_index};
ghost use Rattle.proxy_header.specs.Blocks.{GivesContent, IsTcp4Client, IsTcp6Client, least_of};

use std::net::{IpAddr, Ipv4Addr, Ipv6Addr, SocketAddr};

/// What a block contains after its length.
#[derive(Clone, Copy, Debug, PartialEq, Eq, Drop)]
pub(crate) enum Content {
    /// Two addresses of IPv4, the client's and the proxy's, and their ports.
    Tcp4,
    /// The same of IPv6.
    Tcp6,
    /// At least this number of bytes, which aren't read.
    Skipped { least: usize },
}

impl Content {
    /// Returns the least number of bytes that it has.
    pub(crate) fn least(self) -> usize
        ensures { result ≡ least_of self }
    {
        match self {
            Content::Tcp4 => 12,
            Content::Tcp6 => 36,
            Content::Skipped { least } => least,
        }
    }
}

/// Returns the client's address that a block's body gives, if it gives one.
pub(crate) fn client_of(content: Content, body: &[u8]) -> Option<SocketAddr>
    requires { least_of content ≤ length body.now }
    ensures { GivesContent content body.now result }
{
    match content {
        Content::Tcp4 => Some(tcp4(body)),
        Content::Tcp6 => Some(tcp6(body)),
        Content::Skipped { .. } => None,
    }
}

/// Returns the client of a body of IPv4.
fn tcp4(body: &[u8]) -> SocketAddr
    requires { 12 ≤ length body.now }
    ensures { IsTcp4Client body.now result }
{
    let (source, rest) = body.split_at(4);
    let ip = Ipv4Addr::new(source[0], source[1], source[2], source[3]);
    SocketAddr::new(IpAddr::V4(ip), port_at(rest, 4))
}

/// Returns the client of a body of IPv6.
fn tcp6(body: &[u8]) -> SocketAddr
    requires { 36 ≤ length body.now }
    ensures { IsTcp6Client body.now result }
{
    let (source, rest) = body.split_at(16);
    let mut octets = [0; 16];
    octets.copy_from_slice(source);
    SocketAddr::new(
        Ipv6Addr::from_octets(octets).to_canonical(),
        port_at(rest, 16),
    )
}

/// Returns the number that two bytes write, the high one first.
fn port_at(bytes: &[u8], at: usize) -> u16
    requires { at + 2 ≤ length bytes.now }
    ensures { result ≡ 256 * slice_index bytes.now at + slice_index bytes.now (at + 1) }
{
    u16::from_be_bytes([bytes[at], bytes[at + 1]])
}
