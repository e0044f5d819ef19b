//! A connection of a listener: its phase, and when its time is over.
ghost use Rattle.std.specs.Prelude.{◌≡◌};
ghost use Rattle.status_listener.specs.Visits.{asks, begun, come_to, has_time};

use crate::limits::{ANSWERING_TIME, ASKING_TIME};
use crate::phase::Phase;

/// A connection of a listener.
#[derive(Drop)]
pub(crate) struct Visit<P> {
    /// Names it in the events of the system.
    pub(crate) token: usize,
    /// What holds its socket.
    pub(crate) peer: P,
    pub(crate) phase: Phase,
    /// When its time is over, in milliseconds.
    due: u64,
}

impl<P> Visit<P> {
    /// Returns a connection that comes at this moment, in milliseconds.
    pub(crate) fn begun(token: usize, peer: P, now: u64) -> Visit<P>
        ensures { result ≡ begun token peer now }
    {
        Visit {
            token,
            peer,
            phase: Phase::Asking,
            due: now.saturating_add(ASKING_TIME),
        }
    }

    /// Returns whether the whole request isn't there yet.
    pub(crate) fn asks(&self) -> bool
        ensures { result ≡ asks self.now }
    {
        self.phase.is_asking()
    }

    /// Returns when its time is over, in milliseconds.
    pub(crate) fn due(&self) -> u64
        ensures { result ≡ self.now.due }
    {
        self.due
    }

    /// Returns whether its time isn't over at this moment, in milliseconds.
    pub(crate) fn has_time(&self, now: u64) -> bool
        ensures { result ≡ has_time now self.now }
    {
        now < self.due
    }

    /// Sets its phase at this moment, in milliseconds. The time for the answer begins when the whole request is there.
    pub(crate) fn set_phase(&mut self, phase: Phase, now: u64)
        ensures { self.new ≡ come_to phase now self.old }
    {
        if self.asks() && !phase.is_asking() {
            self.due = now.saturating_add(ANSWERING_TIME);
        }
        self.phase = phase;
    }
}
