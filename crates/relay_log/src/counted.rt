//! The addresses by which lines are counted.
ghost use Rattle.networks.specs.Addresses.{address_of};
ghost use Rattle.networks.specs.Groups.{IsGroupOf};

use networks::Address;
use std::net::IpAddr;

/// Returns the address by which lines are counted: an IPv4 address itself, also if it is mapped, and the first 64 bits of an IPv6
/// address with zeros after them, since one host may have all addresses of an IPv6 subnet.
pub(crate) fn counted(ip: IpAddr) -> Address
    ensures { IsGroupOf (address_of ip) result }
{
    Address::of(ip).group()
}
