//! The moments of a server's clock.
ghost use Rattle.std.specs.Prelude.{◌≡◌, ◌≤◌};

use session_state::Moments;
use sockets::SteadyClock;
use std::time::Clock;

/// Milliseconds since these moments were made. If the clock can't be read, the last moment is returned again.
#[derive(Clone, Copy, Drop)]
pub struct ClockMoments<R> {
    rt: R,
    clock: SteadyClock,
    last: u64,
}

impl<R: Clock> ClockMoments<R> {
    /// The first moment is 0.
    pub fn new(rt: R) -> ClockMoments<R> {
        let clock = SteadyClock::new(&rt);
        ClockMoments { rt, clock, last: 0 }
    }
}

impl<R: Clock> Moments for ClockMoments<R> {
    ghost gives = { λ old moment new. (old.last ≤ moment) × (new.last ≡ moment) };

    fn now(&mut self) -> u64 {
        self.last = self.last.max(self.clock.read(&self.rt).milliseconds());
        self.last
    }
}
