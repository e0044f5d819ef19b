//! Why a description is refused.
ghost use Rattle.std.specs.Prelude.{◌≡◌};
ghost use Rattle.sdp.specs.declared.fault.SdpFault.TheVariants.{OutOfMemory};

use std::alloc::{AllocError, AllocFailed};
use std::error::Error;
use std::fmt;

/// Why a description is refused. The first bad line decides, and `NoMedia` comes last.
#[derive(Clone, Copy, Debug, PartialEq, Eq)]
pub enum SdpFault {
    /// The first line isn't `v=0`, or there is none (RFC 4566, 5.1).
    NoVersion,
    /// A line isn't a listed letter, `=` and a value without NUL, CR and LF (RFC 4566, 5).
    BadLine,
    /// A line begins with a lower-case letter that isn't listed, and `=`.
    UnknownLetter,
    /// An `m=` line of another form than media, port, `RTP/AVP` and formats (RFC 4566, 5.14).
    BadMedia,
    /// No line opens a track.
    NoMedia,
    /// A track more than `MAX_TRACKS`.
    TooManyTracks,
    OutOfMemory,
}

impl SdpFault {
    ghost use Rattle.sdp.specs.Faults.{fault_number};

    /// The number by which the program reports the fault: 1 to 7.
    pub fn number(self) -> u8
        ensures { result ≡ fault_number self }
    {
        match self {
            SdpFault::NoVersion => 1,
            SdpFault::BadLine => 2,
            SdpFault::UnknownLetter => 3,
            SdpFault::BadMedia => 4,
            SdpFault::NoMedia => 5,
            SdpFault::TooManyTracks => 6,
            SdpFault::OutOfMemory => 7,
        }
    }
}

impl fmt::Display for SdpFault {
    ghost use Rattle.std.specs.Prelude.{Some};
    ghost use Rattle.sdp.specs.Faults.{fault_text};

    ghost output = { λ fault. Some (fault_text fault) };

    fn fmt<W: fmt::Write>(&self, f: &mut fmt::Formatter<W>) -> fmt::Result {
        match self {
            SdpFault::NoVersion => write!(f, "no version line"),
            SdpFault::BadLine => write!(f, "bad line"),
            SdpFault::UnknownLetter => write!(f, "unknown letter"),
            SdpFault::BadMedia => write!(f, "bad media line"),
            SdpFault::NoMedia => write!(f, "no media line"),
            SdpFault::TooManyTracks => write!(f, "too many tracks"),
            SdpFault::OutOfMemory => write!(f, "out of memory"),
        }
    }
}

impl Error for SdpFault {}

impl From<AllocError> for SdpFault {
    ghost from_gives = { λ _ e. e ≡ OutOfMemory };

    fn from(_error: AllocError) -> SdpFault {
        SdpFault::OutOfMemory
    }
}

impl<T: Drop> From<AllocFailed<T>> for SdpFault {
    ghost from_gives = { λ _ e. e ≡ OutOfMemory };

    fn from(_error: AllocFailed<T>) -> SdpFault {
        SdpFault::OutOfMemory
    }
}
