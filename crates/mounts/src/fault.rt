//! Why a URI is refused.
ghost use Rattle.std.specs.Prelude.{◌≡◌};
ghost use Rattle.mounts.specs.declared.fault.UriFault.TheVariants.{OutOfMemory};

use std::alloc::AllocError;
use std::error::Error;
use std::fmt;
use url::ParseError;

/// Why a URI is refused.
#[derive(Clone, Copy, Debug, PartialEq, Eq)]
pub enum UriFault {
    /// Neither `*` nor a URL of scheme `rtsp` whose path is empty or begins with a slash (RFC 2326, 3.2 and 6.1).
    BadUri,
    /// There was no memory, or the URL came to 4 GB.
    OutOfMemory,
}

impl UriFault {
    ghost use Rattle.mounts.specs.Uri.{fault_number};

    /// The number by which the program reports the fault: 1 or 2.
    pub fn number(self) -> u8
        ensures { result ≡ fault_number self }
    {
        match self {
            UriFault::BadUri => 1,
            UriFault::OutOfMemory => 2,
        }
    }
}

impl fmt::Display for UriFault {
    ghost use Rattle.std.specs.Prelude.{Some};
    ghost use Rattle.mounts.specs.Uri.{fault_text};

    ghost output = { λ fault. Some (fault_text fault) };

    fn fmt<W: fmt::Write>(&self, f: &mut fmt::Formatter<W>) -> fmt::Result {
        match self {
            UriFault::BadUri => write!(f, "bad request URI"),
            UriFault::OutOfMemory => write!(f, "out of memory"),
        }
    }
}

impl Error for UriFault {}

impl From<AllocError> for UriFault {
    ghost from_gives = { λ _ fault. fault ≡ OutOfMemory };

    fn from(_error: AllocError) -> UriFault {
        UriFault::OutOfMemory
    }
}

/// A URL that has no room counts as out of memory, and any other refusal of `url` as a bad URI.
impl From<ParseError> for UriFault {
    ghost use Rattle.mounts.specs.Refusals.{fault_of};

    ghost from_gives = { λ error fault. fault ≡ fault_of error };

    fn from(error: ParseError) -> UriFault {
        match error {
            ParseError::OutOfMemory => UriFault::OutOfMemory,
            ParseError::Overflow => UriFault::OutOfMemory,
            _ => UriFault::BadUri,
        }
    }
}
