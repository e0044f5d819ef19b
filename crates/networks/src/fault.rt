//! Why networks are refused.
ghost use Rattle.std.specs.Prelude.{◌≡◌};
ghost use Rattle.networks.specs.declared.fault.NetworkFault.TheVariants.{OutOfMemory};

use std::alloc::{AllocError, AllocFailed};
use std::error::Error;
use std::fmt;

/// Why networks are refused. The first network that is refused decides.
#[derive(Clone, Copy, Debug, PartialEq, Eq)]
pub enum NetworkFault {
    /// A network is empty: the text is, or nothing is written before, after or between its commas.
    Empty,
    /// A network is another text than an address with, after a slash, one to three digits.
    BadText,
    /// A network is written with an IPv4-mapped IPv6 address (RFC 4291, 2.5.5.2).
    Mapped,
    /// A network has more bits than its address: over 32 (IPv4) or 128 (IPv6).
    TooManyBits,
    /// A network's address has a one after the network's bits.
    HostBits,
    OutOfMemory,
}

impl fmt::Display for NetworkFault {
    ghost use Rattle.std.specs.Prelude.{Some};
    ghost use Rattle.networks.specs.Faults.{fault_text};

    ghost output = { λ fault. Some (fault_text fault) };

    fn fmt<W: fmt::Write>(&self, f: &mut fmt::Formatter<W>) -> fmt::Result {
        match self {
            NetworkFault::Empty => write!(f, "empty network"),
            NetworkFault::BadText => write!(f, "not an IP address or a network such as 10.0.0.0/8"),
            NetworkFault::Mapped => write!(f, "IPv4-mapped address, to be written as IPv4"),
            NetworkFault::TooManyBits => write!(f, "prefix longer than the address"),
            NetworkFault::HostBits => write!(f, "host bits set after the prefix"),
            NetworkFault::OutOfMemory => write!(f, "out of memory"),
        }
    }
}

impl Error for NetworkFault {}

impl From<AllocError> for NetworkFault {
    ghost from_gives = { λ _ e. e ≡ OutOfMemory };

    fn from(_error: AllocError) -> NetworkFault {
        NetworkFault::OutOfMemory
    }
}

impl<T: Drop> From<AllocFailed<T>> for NetworkFault {
    ghost from_gives = { λ _ e. e ≡ OutOfMemory };

    fn from(_error: AllocFailed<T>) -> NetworkFault {
        NetworkFault::OutOfMemory
    }
}
