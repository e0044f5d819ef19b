//! Why no challenge is looked for.
ghost use Rattle.std.specs.Prelude.{◌≡◌};
ghost use Rattle.rtsp_auth.specs.declared.choice_fault.ChoiceFault.TheVariants.{OutOfMemory};

use std::alloc::AllocError;
use std::error::Error;
use std::fmt;

/// Why the challenges of a reply aren't read.
#[derive(Clone, Copy, Debug, PartialEq, Eq)]
pub enum ChoiceFault {
    /// A WWW-Authenticate field has more than `MOST_FIELD_BYTES`. No other field is answered in its place.
    LongField,
    /// There was no memory.
    OutOfMemory,
}

impl fmt::Display for ChoiceFault {
    ghost use Rattle.std.specs.Prelude.{Some};
    ghost use Rattle.rtsp_auth.specs.Faults.{choice_fault_text};

    ghost output = { λ fault. Some (choice_fault_text fault) };

    fn fmt<W: fmt::Write>(&self, f: &mut fmt::Formatter<W>) -> fmt::Result {
        match self {
            ChoiceFault::LongField => write!(f, "WWW-Authenticate field longer than 4096 bytes"),
            ChoiceFault::OutOfMemory => write!(f, "out of memory"),
        }
    }
}

impl Error for ChoiceFault {}

impl From<AllocError> for ChoiceFault {
    ghost from_gives = { λ _ fault. fault ≡ OutOfMemory };

    fn from(_error: AllocError) -> ChoiceFault {
        ChoiceFault::OutOfMemory
    }
}
