//! A word that threads sleep on until it changes.
ghost use Rattle.std.specs.Prelude.{◌≡◌, ◌%◌, ◌^◌};

use std::sync::Wait;
use std::sync::atomic::{AtomicU64, Ordering};
use std::time::Duration;
use waking::next_word;

/// A word that threads sleep on, and how often it was raised.
#[derive(Drop)]
pub(crate) struct WakeWord {
    wakeups: AtomicU64,
}

/// The word was changed, and the threads that sleep on it have yet to be woken: they are `calling` in the machine of `waking`.
/// It has no `Drop`, so that it ends in `call`.
struct Changed(());

impl WakeWord {
    /// It wasn't raised.
    pub(crate) fn new() -> WakeWord {
        WakeWord {
            wakeups: AtomicU64::new(0),
        }
    }

    /// Changes the word and wakes all threads that sleep on it.
    pub(crate) fn raise(&self) {
        // In this order, so that a thread that is about to sleep doesn't, and one that sleeps is woken.
        let changed = self.change();
        self.call(changed);
    }

    /// Returns how often it was raised. If it is read before a look, no wake-up is missed.
    pub(crate) fn load(&self) -> u64 {
        self.wakeups.load(Ordering::SeqCst)
    }

    /// Sleeps until it is raised once more than `wakeups` times, or for `most` milliseconds. It may also return for no reason.
    pub(crate) fn sleep(&self, rt: &impl Wait, wakeups: u64, most: Option<u64>) {
        match most {
            None => self.wakeups.park(rt, low_half(wakeups)),
            Some(most) => {
                let most = Duration::from_millis(most);
                self.wakeups.park_timeout(rt, low_half(wakeups), most);
            }
        }
    }

    /// Changes the word.
    fn change(&self) -> Changed {
        let _ = self
            .wakeups
            .fetch_update(Ordering::SeqCst, Ordering::SeqCst, |word| {
                Some(next_word(word))
            });
        Changed(())
    }

    /// Wakes all threads that sleep on it: the step `calls`.
    fn call(&self, changed: Changed) {
        let Changed(()) = changed;
        self.wakeups.wake_all();
    }
}

/// The half of a word that a sleeper looks at.
pub fn low_half(word: u64) -> u32
    ensures { result ≡ word % 2 ^ 32 }
{
    (word % (1 << 32)) as u32
}
