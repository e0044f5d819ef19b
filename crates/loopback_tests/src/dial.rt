//! A clock that a test moves by hand.
ghost use Rattle.std.specs.Prelude.{⊤};

use session_state::Moments;
use std::alloc::Global;
use std::process::Abort;
use std::sync::atomic::{AtomicU64, Ordering};
use std::thread;
use std::time::{Clock, Duration};

/// A clock that a test moves by hand. All copies of it are one clock, which exists while the program runs.
#[derive(Clone, Copy, Drop)]
pub(crate) struct Dial {
    moment: &'static AtomicU64,
    /// How often it was read.
    asked: &'static AtomicU64,
}

impl Dial {
    /// The clock is at 0.
    pub(crate) fn new(rt: &impl Abort, alloc: Global) -> Dial {
        Dial {
            moment: number(rt, alloc),
            asked: number(rt, alloc),
        }
    }

    /// Sets the clock to this moment.
    pub(crate) fn set(&self, moment: u64) {
        self.moment.store(moment, Ordering::SeqCst);
    }

    /// Sets the clock to this moment, and waits until connections have read it a hundred times. With ten connections this takes
    /// about a hundred milliseconds.
    pub(crate) fn pass<R: Clock>(&self, rt: &R, moment: u64) {
        self.set(moment);
        let before = self.asked.load(Ordering::SeqCst);
        for _ in 0..10_000u32 {
            if self.asked.load(Ordering::SeqCst).saturating_sub(before) >= 100 {
                return;
            }
            thread::sleep(rt, Duration::from_millis(1));
        }
    }
}

/// A number that is 0, and is never freed.
fn number(rt: &impl Abort, alloc: Global) -> &'static AtomicU64 {
    Box::leak(Box::new(alloc, AtomicU64::new(0)).expect(rt, "memory"))
}

/// The moment of a clock; without a clock it is 0.
#[derive(Clone, Copy, Drop)]
pub(crate) struct Told(pub(crate) Option<Dial>);

impl Moments for Told {
    ghost gives = { λ _ _ _. ⊤ };

    fn now(&mut self) -> u64 {
        match self.0 {
            Some(dial) => {
                dial.asked.fetch_add(1, Ordering::SeqCst);
                dial.moment.load(Ordering::SeqCst)
            }
            None => 0,
        }
    }
}
