//! Clocks of a test's own.
ghost use Rattle.std.specs.Prelude.{◌≡◌, ⊤};

use session_state::Moments;
use std::alloc::Global;
use std::process::Abort;
use std::sync::atomic::{AtomicU64, Ordering};

/// A clock that is always at 0.
#[derive(Clone, Copy, Drop)]
pub(crate) struct Still;

impl Moments for Still {
    ghost gives = { λ _ moment _. moment ≡ 0 };

    fn now(&mut self) -> u64 {
        0
    }
}

/// A clock that is at 0 for the first reads, and then at a moment for ever.
#[derive(Clone, Copy, Drop)]
pub(crate) struct Leaping {
    pub(crate) before: u64,
    pub(crate) moment: u64,
}

impl Moments for Leaping {
    ghost gives = { λ _ _ _. ⊤ };

    fn now(&mut self) -> u64 {
        if self.before == 0 {
            return self.moment;
        }
        self.before -= 1;
        0
    }
}

/// A clock that is moved by hand. All copies of it are one clock, which exists while the program runs.
#[derive(Clone, Copy, Drop)]
pub(crate) struct Dial {
    /// `None` if it is always at 0.
    moment: Option<&'static AtomicU64>,
}

impl Dial {
    /// A clock that is always at 0.
    pub(crate) const STILL: Dial = Dial { moment: None };

    /// The clock is at 0.
    pub(crate) fn new(rt: &impl Abort, alloc: Global) -> Dial {
        let moment = Box::new(alloc, AtomicU64::new(0)).expect(rt, "memory");
        Dial {
            moment: Some(Box::leak(moment)),
        }
    }

    /// Sets the clock to this moment.
    pub(crate) fn set(&self, moment: u64) {
        if let Some(cell) = self.moment {
            cell.store(moment, Ordering::SeqCst);
        }
    }
}

impl Moments for Dial {
    ghost gives = { λ _ _ _. ⊤ };

    fn now(&mut self) -> u64 {
        match self.moment {
            Some(cell) => cell.load(Ordering::SeqCst),
            None => 0,
        }
    }
}
