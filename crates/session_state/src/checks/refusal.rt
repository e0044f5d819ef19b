//! Why a request isn't accepted.
ghost use Rattle.std.specs.Prelude.{◌≡◌};
ghost use Rattle.session_state.specs.declared.checks.refusal.Refusal.TheVariants.{OutOfMemory};

use crate::checks::Check;
use std::alloc::AllocError;

/// Why a request isn't accepted.
#[derive(Drop)]
pub(crate) enum Refusal {
    /// This is the first check that it doesn't pass.
    Fails(Check),
    /// Memory ran out before that was known.
    OutOfMemory,
}

impl From<AllocError> for Refusal {
    ghost from_gives = { λ _ refusal. refusal ≡ OutOfMemory };

    fn from(_error: AllocError) -> Refusal {
        Refusal::OutOfMemory
    }
}
