//! The fields of a line of version 1 (2.1).
ghost use Rattle.std.specs.Prelude.{MatchOption};
ghost use Rattle.std.specs.Net.Grammar.{IsIpv4Text, IsIpv6Text};
ghost use Rattle.proxy_header.specs.Fields.{AreFields, HasNoFields, GivesClient, GivesNoClient, IsPort, IsNoPort, IsTcp4, IsTcp6, IsNoTcp4, IsNoTcp6};

use crate::line::Protocol;
use base_syntax::{cut, read_number};
use std::net::{IpAddr, Ipv4Addr, Ipv6Addr, SocketAddr};

/// The four fields of a line with addresses.
#[derive(Clone, Copy, Drop)]
struct Fields<'a> {
    source: &'a [u8],
    destination: &'a [u8],
    source_port: &'a [u8],
    destination_port: &'a [u8],
}

/// Returns what a line of a protocol gives whose words are followed by this text: the client's address, or none. Returns `None` for a text
/// that no such line has.
pub(crate) fn client_of(protocol: Protocol, text: &[u8]) -> Option<Option<SocketAddr>>
    ensures { MatchOption result (GivesNoClient protocol text.now) (GivesClient protocol text.now) }
{
    match protocol {
        Protocol::Tcp4 => Some(Some(tcp4(text)?)),
        Protocol::Tcp6 => Some(Some(tcp6(text)?)),
        Protocol::Unknown => Some(None),
    }
}

/// Returns the client of a line for IPv4.
fn tcp4(text: &[u8]) -> Option<SocketAddr>
    ensures { MatchOption result (IsNoTcp4 text.now) (IsTcp4 text.now) }
{
    let fields = fields_of(text)?;
    let ip = Ipv4Addr::parse_ascii(fields.source).ok()?;
    Ipv4Addr::parse_ascii(fields.destination).ok()?;
    let port = port_of(fields.source_port)?;
    port_of(fields.destination_port)?;
    Some(SocketAddr::new(IpAddr::V4(ip), port))
}

/// Returns the client of a line for IPv6.
fn tcp6(text: &[u8]) -> Option<SocketAddr>
    ensures { MatchOption result (IsNoTcp6 text.now) (IsTcp6 text.now) }
{
    let fields = fields_of(text)?;
    let ip = Ipv6Addr::parse_ascii(fields.source).ok()?;
    Ipv6Addr::parse_ascii(fields.destination).ok()?;
    let port = port_of(fields.source_port)?;
    port_of(fields.destination_port)?;
    Some(SocketAddr::new(ip.to_canonical(), port))
}

/// Cuts a text at its spaces, if it has three.
fn fields_of(text: &[u8]) -> Option<Fields<'_>>
    ensures { MatchOption result (HasNoFields text.now) (AreFields text.now) }
{
    let (source, rest) = cut(text, b' ');
    let (destination, rest) = cut(rest?, b' ');
    let (source_port, rest) = cut(rest?, b' ');
    let (destination_port, rest) = cut(rest?, b' ');
    match rest {
        Some(_) => None,
        None => Some(Fields {
            source,
            destination,
            source_port,
            destination_port,
        }),
    }
}

/// Returns the port that digits write, without leading zeros.
fn port_of(text: &[u8]) -> Option<u16>
    ensures { MatchOption result (IsNoPort text.now) (IsPort text.now) }
{
    if text.len() > 1 && text[0] == b'0' {
        return None;
    }
    Some(read_number(text, 65_535)? as u16)
}
