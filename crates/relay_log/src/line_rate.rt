//! The limit of log lines in a second.
ghost use Rattle.std.specs.Prelude.{◌≡◌, ◌/◌, ◌↔◌, ◌≤◌, IsTrue, length};
ghost use Rattle.relay_log.specs.Rates.{MayTell, told_once_more};

use crate::limits::LINES_A_SECOND;

/// How many lines were logged in the clock's second in which the last one was logged.
#[derive(Clone, Copy, Debug, PartialEq, Eq, Drop)]
pub struct LineRate {
    /// The second, since the clock's beginning.
    pub second: u64,
    /// How many lines were logged in it, at most ten.
    pub count: u32,
}

impl LineRate {
    /// No line was logged yet.
    pub fn new() -> LineRate
        ensures { result ≡ record { second = 0; count = 0 } }
    {
        LineRate {
            second: 0,
            count: 0,
        }
    }

    /// Returns whether a line may be logged at this moment, in milliseconds: the eleventh of a second may not. A line that may
    /// be logged is counted.
    pub fn tell(&mut self, now: u64) -> bool
        ensures allowed { IsTrue result ↔ MayTell self.old now }
        ensures told { IsTrue result → self.new ≡ told_once_more self.old now }
        ensures same { (IsTrue result → ⊥) → self.new ≡ self.old }
    {
        let second = now / 1_000;
        if self.second != second {
            *self = LineRate { second, count: 1 };
            return true;
        }
        if self.count < LINES_A_SECOND {
            self.count += 1;
            return true;
        }
        false
    }
}
