ghost use Rattle.std.specs.Prelude.{◌≡◌};
ghost use Rattle.ring_script.specs.declared.plan.PlanFault.TheVariants.{OutOfMemory};

use crate::call_line::CallLine;
use base_syntax::Items;
use ring_steps::{Actor, Config};
use std::alloc::{AllocError, AllocFailed};

/// What an input asks for.
#[derive(Debug, Drop)]
pub struct Plan {
    pub config: Config,
    pub calls: Items<CallLine>,
    /// The actors of the steps, in order.
    pub schedule: Items<Actor>,
}

/// Why a text is no input.
#[derive(Clone, Copy, Debug, PartialEq, Eq)]
pub enum PlanFault {
    /// The first bad line, from 1 over all lines, or the line after the last where `go` is missing.
    BadLine(usize),
    OutOfMemory,
}

impl From<AllocError> for PlanFault {
    ghost from_gives = { λ _ e. e ≡ OutOfMemory };

    fn from(_error: AllocError) -> PlanFault {
        PlanFault::OutOfMemory
    }
}

impl<T: Drop> From<AllocFailed<T>> for PlanFault {
    ghost from_gives = { λ _ e. e ≡ OutOfMemory };

    fn from(_error: AllocFailed<T>) -> PlanFault {
        PlanFault::OutOfMemory
    }
}
