//! Why a connection isn't served.
ghost use Rattle.std.specs.Prelude.{◌≡◌, ◌<◌, Option, Some};
ghost use Rattle.server_counts.specs.Refusals.{place_of_refusal};

use std::alloc::AllocError;
use std::fmt;

/// Why a connection that came isn't served.
#[derive(Clone, Copy, Debug, PartialEq, Eq, Drop)]
pub enum Refusal {
    /// The server has as many open connections as it may have.
    Full,
    /// Its address has as many connections as it may have.
    AddressFull,
    /// There was no memory for it.
    OutOfMemory,
    /// No thread could be started that reads it.
    NoThread,
    /// It couldn't be accepted, mostly because there was no descriptor.
    NotAccepted,
}

impl Refusal {
    /// How many reasons are counted by themselves.
    pub const COUNT: usize = 4;

    /// Returns the reason at a place.
    pub fn at(place: usize) -> Refusal
        requires { place < 4 }
        ensures { place_of_refusal result ≡ Some place }
    {
        match place {
            0 => Refusal::Full,
            1 => Refusal::OutOfMemory,
            2 => Refusal::NoThread,
            _ => Refusal::NotAccepted,
        }
    }

    /// Its place among them. `None` if it is counted with its peer's address.
    pub fn place(self) -> Option<usize>
        ensures { result ≡ place_of_refusal self }
    {
        match self {
            Refusal::Full => Some(0),
            Refusal::OutOfMemory => Some(1),
            Refusal::NoThread => Some(2),
            Refusal::NotAccepted => Some(3),
            Refusal::AddressFull => None,
        }
    }
}

impl From<AllocError> for Refusal {
    ghost use Rattle.std.specs.Prelude.{◌≡◌};
    ghost use Rattle.server_counts.specs.declared.refusal.Refusal.TheVariants.{OutOfMemory};

    ghost from_gives = { λ _ why. why ≡ OutOfMemory };

    fn from(_refused: AllocError) -> Refusal {
        Refusal::OutOfMemory
    }
}

impl fmt::Display for Refusal {
    fn fmt<W: fmt::Write>(&self, f: &mut fmt::Formatter<W>) -> fmt::Result {
        match self {
            Refusal::Full => write!(f, "refused: too many connections"),
            Refusal::AddressFull => write!(f, "refused: too many connections of one address"),
            Refusal::OutOfMemory => write!(f, "refused: out of memory"),
            Refusal::NoThread => write!(f, "refused: no thread"),
            Refusal::NotAccepted => write!(f, "not accepted: no descriptor or no memory"),
        }
    }
}
