//! When reports are due.
ghost use Rattle.std.specs.Prelude.{◌≡◌, ◌↔◌, IsTrue};
ghost use Rattle.pull_plan.specs.Reports.{IsDue, after_look};

/// When the next report is due, in milliseconds of one clock.
#[derive(Clone, Copy, Debug, PartialEq, Eq, Drop)]
pub struct ReportTimes {
    /// How many milliseconds are between two reports. `None` for no reports.
    pub every: Option<u64>,
    /// When the last report was made.
    pub last: u64,
}

impl ReportTimes {
    /// The first report is due this long after this moment.
    pub fn new(every: Option<u64>, now: u64) -> ReportTimes
        ensures { result ≡ record { every = every; last = now } }
    {
        ReportTimes { every, last: now }
    }

    /// Returns whether a report is due at this moment. It counts as made then.
    pub fn look(&mut self, now: u64) -> bool
        ensures due { IsTrue result ↔ IsDue self.old now }
        ensures new { self.new ≡ after_look self.old result now }
    {
        let is_due = match self.every {
            Some(every) => now.saturating_sub(self.last) >= every,
            None => false,
        };
        if is_due {
            self.last = now;
        }
        is_due
    }
}
