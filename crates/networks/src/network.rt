//! A network: the addresses that begin with some bits.
ghost use Rattle.std.specs.Prelude.{◌≡◌, ◌≤◌, ◌↔◌, IsTrue, IsOk, IfOk, IfErr};
ghost use Rattle.networks.specs.Addresses.{FitsFamily, HasNoHostBits, width_of};

use crate::address::Address;
use crate::fault::NetworkFault;
use std::fmt;

/// The addresses of one family that begin with the first `bits` bits of this address, as 10.0.0.0/8 (RFC 4632, 3.1;
/// RFC 4291, 2.3). The bits after those are zeros.
#[derive(Clone, Copy, Debug, PartialEq, Eq)]
pub struct Network {
    pub address: Address,
    pub bits: u8,
    ghost fits_family: { FitsFamily address },
    ghost fits: { bits ≤ width_of address },
    ghost no_host_bits: { HasNoHostBits address bits },
}

impl Network {
    ghost use Rattle.networks.specs.Networks.{Holds, IsRefusedAs};

    /// The network of an address's first bits, of which there are this many. It is refused if the address has fewer, or
    /// has a one after them.
    pub fn new(address: Address, bits: u32) -> Result<Network, NetworkFault>
        ensures address { IfOk result (λ network. network.address ≡ address) }
        ensures bits { IfOk result (λ network. network.bits ≡ bits) }
        ensures made { bits ≤ width_of address → HasNoHostBits address bits → IsOk result }
        ensures err { IfErr result (IsRefusedAs address bits) }
    {
        if bits > u32::from(address.width()) {
            return Err(NetworkFault::TooManyBits);
        }
        let bits = bits as u8;
        if address.cut(bits) != address {
            return Err(NetworkFault::HostBits);
        }
        Ok(Network { address, bits })
    }

    /// Whether an address is in the network.
    pub fn contains(&self, address: Address) -> bool
        ensures { IsTrue result ↔ Holds self.now address }
    {
        address.cut(self.bits) == self.address
    }
}

impl fmt::Display for Network {
    ghost use Rattle.std.specs.Prelude.{Some};
    ghost use Rattle.networks.specs.Texts.{network_text};

    ghost output = { λ network. Some (network_text network) };

    fn fmt<W: fmt::Write>(&self, f: &mut fmt::Formatter<W>) -> fmt::Result {
        write!(f, "{}/{}", self.address, self.bits)
    }
}
