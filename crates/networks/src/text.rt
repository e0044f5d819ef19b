//! The text of a network.
ghost use Rattle.std.specs.Prelude.{MatchOption, MatchResult};
ghost use Rattle.networks.specs.Reading.{IsFaulty, IsWrittenAs, Spells, WritesNone};

use crate::address::Address;
use crate::fault::NetworkFault;
use crate::network::Network;
use base_syntax::{cut, read_number};
use std::net::IpAddr;

/// The most digits of a number of bits.
const MOST_DIGITS: usize = 3;

/// The network that a text writes, or why there is none.
pub(crate) fn read_network(text: &[u8]) -> Result<Network, NetworkFault>
    ensures { MatchResult result (Spells text.now) (IsFaulty text.now) }
{
    if text.is_empty() {
        return Err(NetworkFault::Empty);
    }
    let Some((ip, bits)) = read_parts(text) else {
        return Err(NetworkFault::BadText);
    };
    if is_mapped(ip) {
        return Err(NetworkFault::Mapped);
    }
    let address = Address::of(ip);
    let bits = bits.unwrap_or(u32::from(address.width()));
    Network::new(address, bits)
}

/// The address before the first slash, and the number of bits after it, if there is a slash. `None` for another text.
fn read_parts(text: &[u8]) -> Option<(IpAddr, Option<u32>)>
    ensures { MatchOption result (WritesNone text.now) (λ parts. IsWrittenAs text.now parts.0 parts.1) }
{
    let (address, digits) = cut(text, b'/');
    let Ok(ip) = IpAddr::parse_ascii(address) else {
        return None;
    };
    match digits {
        None => Some((ip, None)),
        Some(digits) => match read_bits(digits) {
            Some(bits) => Some((ip, Some(bits))),
            None => None,
        },
    }
}

ghost use Rattle.std.specs.Prelude.{◌≡◌, ◌↔◌, IsTrue};
ghost use Rattle.networks.specs.Reading.{IsMapped, number_of_bits};

/// The number that one to three digits write.
fn read_bits(digits: &[u8]) -> Option<u32>
    ensures { result ≡ number_of_bits digits.now }
{
    if digits.len() > MOST_DIGITS {
        return None;
    }
    read_number(digits, 999)
}

/// Whether an address is an IPv4-mapped IPv6 address.
fn is_mapped(ip: IpAddr) -> bool
    ensures { IsTrue result ↔ IsMapped ip }
{
    match ip {
        IpAddr::V4(_) => false,
        IpAddr::V6(ip) => ip.to_ipv4_mapped().is_some(),
    }
}
