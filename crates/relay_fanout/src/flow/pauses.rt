//! The time between two tries of a publish.
use crate::limits::{PAUSE, PAUSES, YIELDS};
use pacing::Pause;
use sockets::SteadyClock;
use std::thread;
use std::time::{Clock, Duration};

/// Passes the time between the tries of a publish that was refused as pinned. The first pauses yield to a player's thread
/// that was preempted in the middle of a copy, and the later ones sleep. After 20 milliseconds it pauses no more, and the
/// tries that are left follow at once. No lock is held meanwhile.
#[derive(Drop)]
pub(crate) struct Pauses<R> {
    rt: R,
    clock: SteadyClock,
    /// When the first pause of this publish began, in microseconds of the clock.
    began: u64,
}

impl<R: Clock> Pauses<R> {
    pub(crate) fn new(rt: R) -> Pauses<R> {
        let clock = SteadyClock::new(&rt);
        Pauses {
            rt,
            clock,
            began: 0,
        }
    }

    /// Returns whether the tries of this publish may pause longer.
    fn has_time(&mut self) -> bool {
        self.clock
            .read(&self.rt)
            .until(self.began.saturating_add(PAUSES * 1000))
            > 0
    }
}

impl<R: Clock> Pause for Pauses<R> {
    fn pause(&mut self, number: u32) {
        if number == 0 {
            self.began = self.clock.read(&self.rt).moment;
        }
        if number < YIELDS {
            thread::yield_now();
        } else if self.has_time() {
            thread::sleep(&self.rt, Duration::from_micros(PAUSE));
        }
    }
}
