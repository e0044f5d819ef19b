//! The delays between tries.
ghost use Rattle.std.specs.Prelude.{◌≡◌, ◌*◌, ◌<◌, ◌≤◌, ◌^◌, min};

use crate::limits::{MOST_DELAYS, STEADY_TIME};

/// How long the program waits between two tries, in milliseconds. The delay doubles with each try, to thirty times the first one at most.
/// After a try on which frames went on for 10 seconds it is the first one again.
#[derive(Clone, Copy, Debug, PartialEq, Eq, Drop)]
pub struct Retry {
    /// The first delay.
    pub first: u64,
    /// The next delay.
    pub next: u64,
    ghost at_least: { first ≤ next },
    ghost at_most: { next ≤ 30 * first },
    ghost fits: { first ≤ 60000 },
}

impl Retry {
    ghost use Rattle.pull_plan.specs.Retries.{delay_after};

    /// No try has ended.
    pub fn new(first: u64) -> Retry
        requires { first ≤ 60000 }
        ensures first { result.first ≡ first }
        ensures next { result.next ≡ first }
    {
        Retry { first, next: first }
    }

    /// A try has ended on which frames went on for this number of milliseconds. Returns the delay until the next try.
    pub fn ended(&mut self, frames_for: u64) -> u64
        ensures delay { result ≡ delay_after self.old frames_for }
        ensures next { self.new.next ≡ min (2 * result) (30 * self.old.first) }
        ensures first { self.new.first ≡ self.old.first }
    {
        let delay = if frames_for >= STEADY_TIME {
            self.first
        } else {
            self.next
        };
        let most = self.first * MOST_DELAYS;
        *self = Retry {
            first: self.first,
            next: (delay * 2).min(most),
        };
        delay
    }
}
