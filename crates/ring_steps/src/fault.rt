//! Why a run is refused.
ghost use Rattle.std.specs.Prelude.{◌≡◌};
ghost use Rattle.ring_steps.specs.declared.fault.StepFault.TheVariants.{OutOfMemory};

use crate::calls::Actor;
use std::alloc::{AllocError, AllocFailed};
use std::error::Error;
use std::fmt;

/// Why a run is refused: the first of these that is so.
#[derive(Clone, Copy, Debug, PartialEq, Eq)]
pub enum StepFault {
    /// The ring keeps no packet or more than 4,095, has more than 1,024 seats, or another number of
    /// seats than the script has.
    BadConfig,
    /// This call, from 0, is the first of its actor that can't be made: an attachment while attached, a
    /// take or a detachment while detached, or any call after a close. No actor before it, in the order
    /// publisher, seat 0, seat 1 and so on, has such a call.
    BadScript { actor: Actor, call: usize },
    /// The actor at this place of the schedule, from 0, doesn't exist or has no call left.
    BadSchedule(usize),
    /// A growth was refused.
    OutOfMemory,
}

impl StepFault {
    ghost use Rattle.ring_steps.specs.Faults.{fault_number};

    /// The number by which the fault is reported: 1 to 4.
    pub fn number(self) -> u8
        ensures { result ≡ fault_number self }
    {
        match self {
            StepFault::BadConfig => 1,
            StepFault::BadScript { .. } => 2,
            StepFault::BadSchedule(_) => 3,
            StepFault::OutOfMemory => 4,
        }
    }
}

impl fmt::Display for StepFault {
    ghost use Rattle.std.specs.Prelude.{Some};
    ghost use Rattle.ring_steps.specs.Texts.{fault_text};

    ghost output = { λ fault. Some (fault_text fault) };

    fn fmt<W: fmt::Write>(&self, f: &mut fmt::Formatter<W>) -> fmt::Result {
        match self {
            StepFault::BadConfig => write!(f, "bad config"),
            StepFault::BadScript { actor, call } => write!(f, "bad script {actor} call {call}"),
            StepFault::BadSchedule(place) => write!(f, "bad schedule at {place}"),
            StepFault::OutOfMemory => write!(f, "out of memory"),
        }
    }
}

impl Error for StepFault {}

impl From<AllocError> for StepFault {
    ghost from_gives = { λ _ e. e ≡ OutOfMemory };

    fn from(_error: AllocError) -> StepFault {
        StepFault::OutOfMemory
    }
}

impl<T: Drop> From<AllocFailed<T>> for StepFault {
    ghost from_gives = { λ _ e. e ≡ OutOfMemory };

    fn from(_error: AllocFailed<T>) -> StepFault {
        StepFault::OutOfMemory
    }
}
