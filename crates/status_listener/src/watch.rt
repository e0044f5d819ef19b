//! The clocks of a listener.
ghost use Rattle.std.specs.Prelude.{◌≡◌, ◌≤◌};

use std::time::{Clock, Instant, SystemTime, UNIX_EPOCH};

/// A moment of no year that a date can name: an answer has no date then.
const NO_DATE: u64 = u64::MAX;

/// The clocks of a listener. While one can't be read, no time passes.
#[derive(Clone, Copy, Debug, Drop)]
pub(crate) struct Watch {
    began: Option<Instant>,
    /// The last moment that was read, in milliseconds since it was made. It never falls.
    pub(crate) last: u64,
    /// The last moment of the wall clock, in seconds since the beginning of 1970.
    pub(crate) date: u64,
}

impl Watch {
    /// The first moment is 0.
    pub(crate) fn new() -> Watch
        ensures { result.last ≡ 0 }
    {
        Watch {
            began: None,
            last: 0,
            date: NO_DATE,
        }
    }

    /// Reads both clocks. Returns the moment in milliseconds.
    pub(crate) fn read(&mut self, rt: &impl Clock) -> u64
        ensures last { result ≡ self.new.last }
        ensures steady { self.old.last ≤ self.new.last }
    {
        if let Ok(now) = Instant::now(rt) {
            let began = *self.began.get_or_insert(now);
            let passed = u64::try_from(now.duration_since(began).as_millis()).unwrap_or(u64::MAX);
            self.last = self.last.max(passed);
        }
        if let Ok(now) = SystemTime::now(rt) {
            self.date = match now.duration_since(UNIX_EPOCH) {
                Ok(passed) => passed.as_secs(),
                Err(_) => self.date,
            };
        }
        self.last
    }
}
