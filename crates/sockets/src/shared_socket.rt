//! A socket that threads share.
ghost use Rattle.relay_accounts.specs.declared.ending.WireFailure.TheVariants as failure;
ghost use Rattle.std.specs.Prelude.{◌≡◌, ◌↔◌, ◌⊎◌, IsTrue, true, false, Some, None};

use relay_accounts::WireFailure;
use std::io;
use std::io::ErrorKind;
use std::net::TcpStream;
use std::sync::atomic::{AtomicBool, Ordering};

/// A socket that threads share, and how the system has ended it.
#[derive(Drop)]
pub struct SharedSocket {
    stream: TcpStream,
    was_reset: AtomicBool,
    is_unacknowledged: AtomicBool,
}

impl SharedSocket {
    pub fn new(stream: TcpStream) -> SharedSocket {
        SharedSocket {
            stream,
            was_reset: AtomicBool::new(false),
            is_unacknowledged: AtomicBool::new(false),
        }
    }

    pub fn stream(&self) -> &TcpStream {
        &self.stream
    }

    /// Notes how the system has ended the connection, if a read or a write failed by that.
    pub(crate) fn note<T>(&self, moved: &io::Result<T>) {
        if let Err(error) = moved {
            self.note_error(error);
        }
    }

    pub(crate) fn note_error(&self, error: &io::Error) {
        if is_reset(error.kind()) {
            self.was_reset.store(true, Ordering::SeqCst);
        }
        if is_unanswered(error.kind()) {
            self.note_stall();
        }
    }

    /// Notes a write that failed, which one does that took no byte for as long as the socket says, too.
    pub(crate) fn note_write(&self, written: &io::Result<usize>) {
        match written {
            Err(error) if error.kind() == ErrorKind::WouldBlock => self.note_stall(),
            _ => self.note(written),
        }
    }

    pub(crate) fn note_stall(&self) {
        self.is_unacknowledged.store(true, Ordering::SeqCst);
    }

    pub(crate) fn failure(&self) -> Option<WireFailure> {
        let is_unacknowledged = self.is_unacknowledged.load(Ordering::SeqCst);
        socket_failure(is_unacknowledged, self.was_reset.load(Ordering::SeqCst))
    }
}

/// How the system has ended a connection. What fails after it has given the peer up fails as after a reset, so a reset comes
/// second.
fn socket_failure(is_unacknowledged: bool, was_reset: bool) -> Option<WireFailure>
    ensures unacknowledged { is_unacknowledged ≡ true → result ≡ Some failure.NoAcknowledgement }
    ensures reset { is_unacknowledged ≡ false → was_reset ≡ true → result ≡ Some failure.Reset }
    ensures none { is_unacknowledged ≡ false → was_reset ≡ false → result ≡ None }
{
    if is_unacknowledged {
        return Some(WireFailure::NoAcknowledgement);
    }
    was_reset.then_some(WireFailure::Reset)
}

/// Returns whether a read or a write that failed so did because the peer has reset the connection, or has closed it and reads no
/// more.
fn is_reset(kind: ErrorKind) -> bool
    ensures { IsTrue result ↔ ((kind ≡ ErrorKind.ConnectionReset) ⊎ (kind ≡ ErrorKind.BrokenPipe)) }
{
    matches!(kind, ErrorKind::ConnectionReset | ErrorKind::BrokenPipe)
}

/// Returns whether a read or a write that failed so did because the system has given the peer up, which acknowledges nothing. If
/// its link is cut, the system may say that it can't be reached in place of how long it has waited.
fn is_unanswered(kind: ErrorKind) -> bool
    ensures { IsTrue result ↔ ((kind ≡ ErrorKind.TimedOut) ⊎ (kind ≡ ErrorKind.HostUnreachable) ⊎ (kind ≡ ErrorKind.NetworkUnreachable)) }
{
    matches!(
        kind,
        ErrorKind::TimedOut | ErrorKind::HostUnreachable | ErrorKind::NetworkUnreachable
    )
}
