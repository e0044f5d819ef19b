//! Why a request has no Authorization field.
ghost use Rattle.std.specs.Prelude.{◌≡◌};
ghost use Rattle.rtsp_auth.specs.declared.field_fault.FieldFault.TheVariants.{OutOfMemory};

use std::alloc::AllocError;
use std::error::Error;
use std::fmt;

/// Why the Authorization field of a request isn't written. The first one that applies is reported, in this order; `OutOfMemory` can
/// come with any of them.
#[derive(Clone, Copy, Debug, PartialEq, Eq)]
pub enum FieldFault {
    /// 2^32 - 1 requests were sent with the nonce, and nc has no number for one more (RFC 7616, 3.4).
    LastCount,
    /// The value has more than `MOST_FIELD_BYTES`.
    LongField,
    /// The value has a byte below 0x20 or 0x7F. It is of the challenge, the URI or the cnonce, since credentials have none.
    ControlCharacter,
    /// There was no memory.
    OutOfMemory,
}

impl fmt::Display for FieldFault {
    ghost use Rattle.std.specs.Prelude.{Some};
    ghost use Rattle.rtsp_auth.specs.Faults.{field_fault_text};

    ghost output = { λ fault. Some (field_fault_text fault) };

    fn fmt<W: fmt::Write>(&self, f: &mut fmt::Formatter<W>) -> fmt::Result {
        match self {
            FieldFault::LastCount => write!(f, "no count is left for this nonce"),
            FieldFault::LongField => write!(f, "Authorization field longer than 4096 bytes"),
            FieldFault::ControlCharacter => write!(f, "control character in Authorization field"),
            FieldFault::OutOfMemory => write!(f, "out of memory"),
        }
    }
}

impl Error for FieldFault {}

impl From<AllocError> for FieldFault {
    ghost from_gives = { λ _ fault. fault ≡ OutOfMemory };

    fn from(_error: AllocError) -> FieldFault {
        FieldFault::OutOfMemory
    }
}
