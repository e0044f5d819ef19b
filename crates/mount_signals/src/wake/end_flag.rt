//! What is set once threads are to end, before they are woken: each call returns what the next one takes.
use crate::wake::wake_signal::WakeSignal;
use crate::wake::writers_word::WritersWord;
use std::sync::atomic::{AtomicBool, Ordering};

/// Whether threads are to end. One that is woken after it was set sees it.
#[derive(Drop)]
pub struct EndFlag {
    is_set: AtomicBool,
}

/// The flag was set, and the threads that look at it weren't woken since. It has no `Drop`, so that it ends in `raise` or `notify`.
pub struct EndSet(());

impl EndFlag {
    /// It isn't set.
    pub fn new() -> EndFlag {
        EndFlag {
            is_set: AtomicBool::new(false),
        }
    }

    /// Sets it, before the threads that look at it are woken.
    pub fn set(&self) -> EndSet {
        self.is_set.store(true, Ordering::SeqCst);
        EndSet(())
    }

    /// Returns whether it was set.
    pub fn is_set(&self) -> bool {
        self.is_set.load(Ordering::SeqCst)
    }
}

impl EndSet {
    /// Raises the writers' word, for writers that are to end.
    pub fn raise(self, writers: &WritersWord) {
        let EndSet(()) = self;
        writers.raise();
    }

    /// Notifies the waking thread, which is to end.
    pub(crate) fn notify(self, wake_signal: &WakeSignal) {
        let EndSet(()) = self;
        let _ = wake_signal.notify();
    }
}
