//! Why a control attribute gives no URI.
ghost use Rattle.std.specs.Prelude.{◌≡◌};
ghost use Rattle.source_urls.specs.declared.control_fault.ControlFault.TheVariants.{OutOfMemory};

use std::alloc::AllocError;
use std::error::Error;
use std::fmt;

/// Why a control attribute gives no URI. The first one that applies is reported, in this order. A URI with such bytes, or of such a
/// length, can't be in a request line (RFC 2326, 6.1).
#[derive(Clone, Copy, Debug, PartialEq, Eq)]
pub enum ControlFault {
    /// The base is empty.
    NoBase,
    /// The base is longer than 2,048 bytes.
    LongBase,
    /// The base has a control character, a blank or a byte over 0x7E.
    BadBase,
    /// The control is longer than 2,048 bytes.
    LongControl,
    /// The control has a control character, a blank or a byte over 0x7E.
    BadControl,
    /// The control is an absolute URI of another scheme than `rtsp`, as `rtsps://h/t` or `rtspu://h/t` (RFC 3986, 3.1).
    OtherScheme,
    /// There was no memory.
    OutOfMemory,
}

impl fmt::Display for ControlFault {
    ghost use Rattle.std.specs.Prelude.{Some};
    ghost use Rattle.source_urls.specs.Faults.{control_fault_text};

    ghost output = { λ fault. Some (control_fault_text fault) };

    fn fmt<W: fmt::Write>(&self, f: &mut fmt::Formatter<W>) -> fmt::Result {
        match self {
            ControlFault::NoBase => write!(f, "empty base URI"),
            ControlFault::LongBase => write!(f, "base URI longer than 2048 bytes"),
            ControlFault::BadBase => write!(
                f,
                "blank, control character or byte over 0x7e in base URI"
            ),
            ControlFault::LongControl => write!(f, "control URI longer than 2048 bytes"),
            ControlFault::BadControl => write!(
                f,
                "blank, control character or byte over 0x7e in control URI"
            ),
            ControlFault::OtherScheme => write!(f, "control URI of another scheme than rtsp"),
            ControlFault::OutOfMemory => write!(f, "out of memory"),
        }
    }
}

impl Error for ControlFault {}

impl From<AllocError> for ControlFault {
    ghost from_gives = { λ _ fault. fault ≡ OutOfMemory };

    fn from(_error: AllocError) -> ControlFault {
        ControlFault::OutOfMemory
    }
}
