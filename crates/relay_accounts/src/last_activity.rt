//! When a connection was last heard.
use std::sync::atomic::{AtomicU64, Ordering};

/// When a connection was last heard: the moment of its last whole message or frame, in milliseconds of a clock that doesn't go
/// back. Bytes that make neither don't count. Of two moments the later one is kept, whichever thread sets them.
///
/// The thread that reads for the connection sets the moment; the code that is handed a message or a frame notes it.
#[derive(Drop)]
pub struct LastActivity {
    now: AtomicU64,
    last: AtomicU64,
}

impl LastActivity {
    /// The connection comes at this moment.
    pub fn new(now: u64) -> LastActivity {
        LastActivity {
            now: AtomicU64::new(now),
            last: AtomicU64::new(now),
        }
    }

    /// Sets the current moment, unless a later one was set before.
    pub fn pass(&self, now: u64) {
        self.now.fetch_max(now, Ordering::SeqCst);
    }

    /// Returns the current moment.
    pub fn now(&self) -> u64 {
        self.now.load(Ordering::SeqCst)
    }

    /// Notes that a whole message or frame has come by now.
    pub fn note(&self) {
        self.last.fetch_max(self.now(), Ordering::SeqCst);
    }

    /// Returns the moment of the last whole message or frame.
    pub fn last(&self) -> u64 {
        self.last.load(Ordering::SeqCst)
    }
}
