//! The gate between a server and each of its connections.

/// A connection passes it before each call of the book, so that a test can hold one back. It is also called before each
/// thread of a connection and of the server is started, so that a test can refuse one. A test's own runtime handle can't
/// refuse a thread, because `Threads` only states that threads may be started.
pub trait Gate {
    /// `turn` counts the connection's calls from 0.
    fn pass(&self, conn: u64, turn: u64);

    /// Returns whether a thread of a connection may be started. If not, it counts as one that the system refuses.
    fn may_start(&self) -> bool {
        true
    }

    /// The same of a thread that all connections share.
    fn may_help(&self) -> bool {
        true
    }
}

/// A gate that holds no connection back.
#[derive(Clone, Copy, Drop)]
pub struct OpenGate;

impl Gate for OpenGate {
    fn pass(&self, _conn: u64, _turn: u64) {}
}
