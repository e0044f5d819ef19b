//! Why a connection can't come.
ghost use Rattle.std.specs.Prelude.{◌≡◌};
ghost use Rattle.session_state.specs.declared.fault.ConnectFault.TheVariants.{OutOfMemory};

use std::alloc::{AllocError, AllocFailed};

/// Why a connection can't come.
#[derive(Clone, Copy, Debug, PartialEq, Eq)]
pub enum ConnectFault {
    /// As many are open as may be, or the numbers are used up.
    Full,
    /// There was no memory.
    OutOfMemory,
}

impl From<AllocError> for ConnectFault {
    ghost from_gives = { λ _ fault. fault ≡ OutOfMemory };

    fn from(_error: AllocError) -> ConnectFault {
        ConnectFault::OutOfMemory
    }
}

impl<T: Drop> From<AllocFailed<T>> for ConnectFault {
    ghost from_gives = { λ _ fault. fault ≡ OutOfMemory };

    fn from(_error: AllocFailed<T>) -> ConnectFault {
        ConnectFault::OutOfMemory
    }
}
