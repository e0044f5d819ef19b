//! Addresses of peers.
ghost use Rattle.std.specs.Prelude.{◌≡◌, ◌-◌, ◌*◌, ◌/◌, ◌^◌, ◌≤◌, ◌++◌, take, replicate};
ghost use Rattle.networks.specs.Addresses.{address_of, bits_of, width_of, FitsFamily};
ghost use Rattle.networks.specs.Groups.{IsGroupOf};

use std::fmt;
use std::net::{IpAddr, Ipv4Addr, Ipv6Addr};

/// The address of a peer, as a number whose first bit is the most significant one. An IPv4-mapped IPv6 address
/// (RFC 4291, 2.5.5.2) is its IPv4 address.
#[derive(Clone, Copy, Debug, PartialEq, Eq, Hash)]
pub enum Address {
    V4(u32),
    V6(u128),
}

impl Address {
    /// The address of a socket's peer.
    pub fn of(ip: IpAddr) -> Address
        ensures { result ≡ address_of ip }
    {
        match ip {
            IpAddr::V4(ip) => Address::V4(ip.to_bits()),
            IpAddr::V6(ip) => match ip.to_ipv4_mapped() {
                Some(mapped) => Address::V4(mapped.to_bits()),
                None => Address::V6(ip.to_bits()),
            },
        }
    }

    /// How many bits an address of this family has: 32 or 128.
    pub fn width(self) -> u8
        ensures value { result ≡ width_of self }
        ensures fits { FitsFamily self }
    {
        match self {
            Address::V4(_) => 32,
            Address::V6(_) => 128,
        }
    }

    /// The address with zeros after its first `bits` bits.
    pub fn cut(self, bits: u8) -> Address
        ensures width { width_of result ≡ width_of self }
        ensures fits { FitsFamily result }
        ensures bits { bits_of result ≡ take bits (bits_of self) ++ replicate (width_of self - bits) 0 }
    {
        let width = self.width();
        let lost = width.saturating_sub(bits);
        match self {
            Address::V4(number) => Address::V4(without_last(u128::from(number), lost) as u32),
            Address::V6(number) => Address::V6(without_last(number, lost)),
        }
    }

    /// The address by which peers are counted: an IPv4 address itself, and the first 64 bits of an IPv6 address with
    /// zeros after them, since one IPv6 host may use all addresses of its subnet (RFC 4291, 2.5.1).
    pub fn group(self) -> Address
        ensures { IsGroupOf self result }
    {
        match self {
            Address::V4(_) => self,
            Address::V6(_) => self.cut(64),
        }
    }
}

/// The number with zeros in place of its last `lost` bits.
fn without_last(number: u128, lost: u8) -> u128
    requires { lost ≤ 128 }
    ensures { result ≡ number / 2 ^ lost * 2 ^ lost }
{
    if lost == 128 {
        return 0;
    }
    number >> lost << lost
}

impl fmt::Display for Address {
    ghost use Rattle.std.specs.Prelude.{Some};
    ghost use Rattle.networks.specs.Texts.{address_text};

    ghost output = { λ address. Some (address_text address) };

    fn fmt<W: fmt::Write>(&self, f: &mut fmt::Formatter<W>) -> fmt::Result {
        match self {
            Address::V4(number) => write!(f, "{}", Ipv4Addr::from_bits(*number)),
            Address::V6(number) => write!(f, "{}", Ipv6Addr::from_bits(*number)),
        }
    }
}
