//! A count that is logged at most once a minute.
ghost use Rattle.std.specs.Prelude.{◌≡◌, ◌+◌, None, Some, MatchOption};
ghost use Rattle.relay_accounts.specs.Capped.{capped};
ghost use Rattle.relay_log.specs.Tallies.{due_at, IsDue};

use crate::limits::TALLY_TIME;

/// Counts what is logged at most once a minute, with its number. Moments are milliseconds of a clock that doesn't go back.
#[derive(Clone, Copy, Debug, PartialEq, Eq, Drop)]
pub struct Tally {
    /// How often it came since it was last logged.
    pub count: u64,
    /// When it was last logged.
    pub told: Option<u64>,
}

impl Tally {
    /// Nothing came.
    pub fn new() -> Tally
        ensures { result ≡ record { count = 0; told = None } }
    {
        Tally {
            count: 0,
            told: None,
        }
    }

    /// Counts it once more.
    pub fn add(&mut self)
        ensures { self.new ≡ record self.old { count = capped (self.old.count + 1) } }
    {
        self.count = self.count.saturating_add(1);
    }

    /// Returns when it is due to be logged. `None` if nothing came since it was last logged.
    pub fn due(&self) -> Option<u64>
        ensures { result ≡ due_at self.now }
    {
        if self.count == 0 {
            return None;
        }
        match self.told {
            Some(told) => Some(told.saturating_add(TALLY_TIME)),
            None => Some(0),
        }
    }

    /// Returns how often it came, if that is due to be logged now; then it counts as logged.
    pub fn tell(&mut self, now: u64) -> Option<u64>
        ensures { MatchOption result ((IsDue self.old now → ⊥) × (self.new ≡ self.old)) (λ count. IsDue self.old now × (count ≡ self.old.count) × (self.new ≡ record { count = 0; told = Some now })) }
    {
        let due = self.due()?;
        if due > now {
            return None;
        }
        let count = self.count;
        *self = Tally {
            count: 0,
            told: Some(now),
        };
        Some(count)
    }
}
