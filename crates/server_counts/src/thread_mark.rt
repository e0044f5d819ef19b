//! The mark of a thread that serves many.
use std::sync::atomic::{AtomicBool, AtomicU64, Ordering};

/// A thread's mark as it was read.
#[derive(Clone, Copy, Debug, PartialEq, Eq, Drop)]
pub struct Mark {
    /// Whether there was something to do for the thread.
    pub is_raised: bool,
    /// How often it had looked for something to do. A mark that is raised twice with the same number wasn't looked at between.
    pub looks: u64,
}

/// A thread of a server that serves many.
#[derive(Clone, Copy, Debug, PartialEq, Eq, Drop)]
pub enum ServerThread {
    /// It accepts connections.
    Accepting,
    /// It wakes players and writers if packets came.
    Waking,
    /// The writer of this number: it sends the frames of its players.
    Writing(usize),
    /// It closes refused connections, and logs how many there were.
    Refusing,
    /// It reports mounts and players.
    Reporting,
}

/// The mark of a thread as it was read.
#[derive(Clone, Copy, Debug, PartialEq, Eq, Drop)]
pub struct ThreadLook {
    pub thread: ServerThread,
    pub mark: Mark,
}

/// What a thread that serves many leaves for others to see whether it still looks for something to do.
#[derive(Drop)]
pub struct ThreadMark {
    is_raised: AtomicBool,
    looks: AtomicU64,
}

impl ThreadMark {
    /// There is nothing to do, and the thread hasn't looked.
    pub fn new() -> ThreadMark {
        ThreadMark {
            is_raised: AtomicBool::new(false),
            looks: AtomicU64::new(0),
        }
    }

    /// There is something to do.
    pub fn raise(&self) {
        self.is_raised.store(true, Ordering::SeqCst);
    }

    /// It is done, and the thread looks for more.
    pub fn look(&self) {
        self.looks.fetch_add(1, Ordering::SeqCst);
        self.is_raised.store(false, Ordering::SeqCst);
    }

    /// Returns the mark at this moment. A look between the two readings leaves it raised by a later number at most.
    pub fn read(&self) -> Mark {
        let looks = self.looks.load(Ordering::SeqCst);
        Mark {
            is_raised: self.is_raised.load(Ordering::SeqCst),
            looks,
        }
    }
}
