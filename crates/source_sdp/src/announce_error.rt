//! Why no description goes on.
ghost use Rattle.std.specs.Prelude.{◌≡◌};
ghost use Rattle.source_sdp.specs.declared.announce_error.AnnounceError.TheVariants.{OutOfMemory};

use std::alloc::AllocError;
use std::error::Error;
use std::fmt;

/// Why no description goes on.
#[derive(Clone, Copy, Debug, PartialEq, Eq, Drop)]
pub enum AnnounceError {
    /// No track goes on: `sdp::read` takes no description without one.
    NoTrack,
    /// The description would have more than `MAX_ANNOUNCED_BYTES` bytes.
    TooLong,
    OutOfMemory,
}

impl fmt::Display for AnnounceError {
    ghost use Rattle.std.specs.Prelude.{Some};
    ghost use Rattle.source_sdp.specs.Refusals.{refusal_text};

    ghost output = { λ error. Some (refusal_text error) };

    fn fmt<W: fmt::Write>(&self, f: &mut fmt::Formatter<W>) -> fmt::Result {
        match self {
            AnnounceError::NoTrack => write!(f, "no track goes on"),
            AnnounceError::TooLong => write!(f, "announced description too long"),
            AnnounceError::OutOfMemory => write!(f, "out of memory"),
        }
    }
}

impl Error for AnnounceError {}

impl From<AllocError> for AnnounceError {
    ghost from_gives = { λ _ e. e ≡ OutOfMemory };

    fn from(_error: AllocError) -> AnnounceError {
        AnnounceError::OutOfMemory
    }
}
