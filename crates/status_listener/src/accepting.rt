//! When a listener accepts.
ghost use Rattle.std.specs.Prelude.{◌≡◌, ◌≤◌, Some, None};
ghost use Rattle.status_listener.specs.Accepting.{after_failure, accepts, comes, earlier, wait_of};

use crate::limits::ACCEPT_RETRY;

/// When a listener accepts next, in milliseconds. `None` if no connection waits for it.
#[derive(Clone, Copy, Debug, PartialEq, Eq, Drop)]
pub(crate) struct Accepting {
    pub(crate) at: Option<u64>,
}

impl Accepting {
    /// Connections wait at this moment. A retry after a failure stays when it is.
    pub(crate) fn ask(&mut self, now: u64)
        ensures { self.new.at ≡ comes self.old.at now }
    {
        if self.at.is_none() {
            self.at = Some(now);
        }
    }

    /// No connection waits.
    pub(crate) fn rest(&mut self)
        ensures { self.new.at ≡ None }
    {
        self.at = None;
    }

    /// An accept failed at this moment.
    pub(crate) fn fail(&mut self, now: u64)
        ensures { self.new.at ≡ after_failure now }
    {
        self.at = Some(now.saturating_add(ACCEPT_RETRY));
    }

    /// Returns whether to accept at this moment.
    pub(crate) fn is_due(self, now: u64) -> bool
        ensures { result ≡ accepts self.at now }
    {
        match self.at {
            Some(at) => at <= now,
            None => false,
        }
    }

    /// Returns how long to wait at this moment, in milliseconds, until the next accept, or until the time of a connection is over.
    /// `None` if neither is to come.
    pub(crate) fn wait(self, next_due: Option<u64>, now: u64) -> Option<u64>
        ensures { result ≡ wait_of (earlier self.at next_due) now }
    {
        let next = match (self.at, next_due) {
            (Some(at), Some(due)) => Some(at.min(due)),
            (Some(at), None) => Some(at),
            (None, due) => due,
        };
        next.map(|moment| moment.saturating_sub(now))
    }
}
