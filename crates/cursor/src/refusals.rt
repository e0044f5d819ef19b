ghost use Rattle.std.specs.Prelude.{◌≡◌};
ghost use Rattle.cursor.specs.Refusals.{number_of, text_of};
ghost use Rattle.cursor.specs.declared.refusals.Refused.TheVariants.{OutOfMemory};

use std::alloc::{AllocError, AllocFailed};
use std::error::Error;
use std::fmt;

/// Why a packet wasn't published. The log is then as it was.
#[derive(Clone, Copy, Debug, PartialEq, Eq)]
pub enum Refused {
    /// The packet's place is pinned by so many seats, at least 1.
    Pinned { pins: u64 },
    /// The packet is longer than the feed's `packet_bytes`.
    TooLong,
    /// As many packets were published as the log can ever number.
    Worn,
    /// There was no memory for the packet.
    OutOfMemory,
}

impl Refused {
    /// The refusal's number, from 1 to 4.
    pub fn number(self) -> u8
        ensures { result ≡ number_of self }
    {
        match self {
            Refused::Pinned { .. } => 1,
            Refused::TooLong => 2,
            Refused::Worn => 3,
            Refused::OutOfMemory => 4,
        }
    }
}

impl fmt::Display for Refused {
    ghost use Rattle.std.specs.Prelude.{Some};

    ghost output = { λ refused. Some (text_of refused) };

    fn fmt<W: fmt::Write>(&self, f: &mut fmt::Formatter<W>) -> fmt::Result {
        match self {
            Refused::Pinned { pins } => write!(f, "pinned by {pins}"),
            Refused::TooLong => write!(f, "too long"),
            Refused::Worn => write!(f, "worn"),
            Refused::OutOfMemory => write!(f, "out of memory"),
        }
    }
}

impl Error for Refused {}

impl From<AllocError> for Refused {
    ghost from_gives = { λ _ e. e ≡ OutOfMemory };

    fn from(_e: AllocError) -> Refused {
        Refused::OutOfMemory
    }
}

impl<T: Drop> From<AllocFailed<T>> for Refused {
    ghost from_gives = { λ _ e. e ≡ OutOfMemory };

    fn from(_e: AllocFailed<T>) -> Refused {
        Refused::OutOfMemory
    }
}
