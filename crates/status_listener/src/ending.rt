//! The end of a listener.
use mio::Waker;
use std::alloc::{AllocError, Global};
use std::sync::Arc;
use std::sync::atomic::{AtomicBool, Ordering};

/// Ends a listener, from any thread.
#[derive(Drop)]
pub struct Ending {
    is_asked: AtomicBool,
    waker: Waker,
}

impl Ending {
    /// No end was requested. The only error is out of memory.
    pub(crate) fn shared(alloc: Global, waker: Waker) -> Result<Arc<Ending>, AllocError> {
        let ending = Ending {
            is_asked: AtomicBool::new(false),
            waker,
        };
        Ok(Arc::new(alloc, ending)?)
    }

    /// Requests the end: the listener's `serve` returns soon.
    pub fn end(&self) {
        self.is_asked.store(true, Ordering::SeqCst);
        let _ = self.waker.wake();
    }

    /// Returns whether the end was requested.
    pub(crate) fn is_asked(&self) -> bool {
        self.is_asked.load(Ordering::SeqCst)
    }
}
