//! What a connection runs over, as it is ended.
use relay_accounts::WireFailure;
use std::net::{Shutdown, TcpStream};
use std::time::Duration;

/// What a connection runs over can be ended from any thread.
pub trait HangUp {
    /// Ends both ways: a read or a write that waits returns.
    fn hang_up(&self);

    /// Nothing more is written: the peer reads what was written, and then the end. A write that waits returns.
    fn close_writes(&self);

    /// A read or a write that begins from now on fails once it has waited for this many milliseconds, at least 1.
    fn limit_waits(&self, wait: u64);

    /// Notes that the peer takes no byte, for which it is about to be disconnected.
    fn note_stall(&self) {}

    /// How the system has ended the connection, if a read or a write has failed by that.
    fn failure(&self) -> Option<WireFailure> {
        None
    }
}

impl HangUp for TcpStream {
    fn hang_up(&self) {
        // A socket that the peer has closed is shut down already.
        let _ = self.shutdown(Shutdown::Both);
    }

    fn close_writes(&self) {
        let _ = self.shutdown(Shutdown::Write);
    }

    fn limit_waits(&self, wait: u64) {
        let wait = Some(Duration::from_millis(wait));
        let _ = self.set_read_timeout(wait);
        let _ = self.set_write_timeout(wait);
    }
}
