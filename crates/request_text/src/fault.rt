//! Why a request was not written.
ghost use Rattle.std.specs.Prelude.{◌≡◌};

use std::alloc::AllocError;
use std::error::Error;
use std::fmt;

/// Why a request was not written.
#[derive(Clone, Copy, Debug, PartialEq, Eq, Drop)]
pub enum RequestFault {
    /// The URI is empty, or has a byte that is not visible ASCII, 0x21 to 0x7E.
    Uri,
    /// The value of a field begins or ends with a space or a tab, or has a byte that is neither a tab nor one of 0x20 to 0x7E
    /// and 0x80 to 0xFF.
    Value,
    /// The body has more than 65,536 bytes.
    BodyTooLong,
    /// The head, its empty line included, has more than 8,192 bytes.
    HeadTooLong,
    /// There was no memory for it.
    OutOfMemory,
}

impl fmt::Display for RequestFault {
    ghost use Rattle.std.specs.Prelude.{Some};
    ghost use Rattle.request_text.specs.Faults.{fault_text};

    ghost output = { λ fault. Some (fault_text fault) };

    fn fmt<W: fmt::Write>(&self, f: &mut fmt::Formatter<W>) -> fmt::Result {
        match self {
            RequestFault::Uri => write!(f, "the URI can't be sent"),
            RequestFault::Value => write!(f, "the value of a field can't be sent"),
            RequestFault::BodyTooLong => write!(f, "the body is too long"),
            RequestFault::HeadTooLong => write!(f, "the head is too long"),
            RequestFault::OutOfMemory => write!(f, "out of memory"),
        }
    }
}

impl Error for RequestFault {}

impl From<AllocError> for RequestFault {
    ghost use Rattle.request_text.specs.declared.fault.RequestFault.TheVariants.{OutOfMemory};

    ghost from_gives = { λ _ fault. fault ≡ OutOfMemory };

    fn from(_error: AllocError) -> RequestFault {
        RequestFault::OutOfMemory
    }
}
