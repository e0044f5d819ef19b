//! What a clock was found at.
ghost use Rattle.std.specs.Prelude.{◌≡◌, ◌-◌, ◌/◌, if◌then◌else◌};

/// What a clock was found at.
#[derive(Clone, Copy, Debug, PartialEq, Eq, Drop)]
pub struct Reading {
    /// In microseconds since the clock was made.
    pub moment: u64,
    /// Whether the system's clock could be read. If it couldn't, `moment` is the last one that was.
    pub is_read: bool,
}

impl Reading {
    /// Returns the moment in milliseconds.
    pub fn milliseconds(self) -> u64
        ensures { result ≡ self.moment / 1000 }
    {
        self.moment / 1000
    }

    /// Returns how many microseconds there are until the deadline. Returns 0 if the clock couldn't
    /// be read, so that no thread waits.
    pub fn until(self, deadline: u64) -> u64
        ensures { result ≡ (if self.is_read then deadline - self.moment else 0) }
    {
        if self.is_read {
            deadline.saturating_sub(self.moment)
        } else {
            0
        }
    }
}
