//! The clock of a server.
ghost use Rattle.std.specs.Prelude.{◌≡◌, ◌≤◌, false};

use crate::reading::Reading;
use std::time::{Clock, Instant};

/// A clock that never goes back. If the system's clock can't be read, the last moment that was read is returned again: so nobody
/// is given up for it. So it is for good if it couldn't be read when this one was made.
#[derive(Clone, Copy, Debug, Drop)]
pub struct SteadyClock {
    /// When it was made, if the system's clock could be read then.
    began: Option<Instant>,
    /// The last moment that was read, in microseconds since it was made.
    pub last: u64,
}

impl SteadyClock {
    /// The first moment is 0.
    pub fn new(rt: &impl Clock) -> SteadyClock
        ensures starts { result.last ≡ 0 }
    {
        SteadyClock {
            began: Instant::now(rt).ok(),
            last: 0,
        }
    }

    /// Reads the clock.
    pub fn read(&mut self, rt: &impl Clock) -> Reading
        ensures gives { (self.old.last ≤ result.moment) × (self.new.last ≡ result.moment) }
        ensures failed { result.is_read ≡ false → result.moment ≡ self.old.last }
    {
        let (Some(began), Ok(now)) = (self.began, Instant::now(rt)) else {
            return Reading {
                moment: self.last,
                is_read: false,
            };
        };
        let passed = u64::try_from(now.duration_since(began).as_micros()).unwrap_or(u64::MAX);
        self.last = self.last.max(passed);
        Reading {
            moment: self.last,
            is_read: true,
        }
    }
}
