//! The owners of a socket.
ghost use Rattle.std.specs.Prelude.{IsOk};
ghost use Rattle.std.specs.Io.{ReadsAtMost};

use crate::hang_up::HangUp;
use crate::limits::MOST_TRIES;
use crate::shared_socket::SharedSocket;
use interleaved::TryWrite;
use libc::net;
use relay_accounts::WireFailure;
use std::alloc::{AllocError, Global};
use std::io;
use std::io::{ErrorKind, Read, Write};
use std::net::TcpStream;
use std::os::fd::AsRawFd;
use std::sync::Arc;

/// One of several owners of a socket, which is closed with the last of them.
#[derive(Drop)]
pub struct Socket {
    shared: Arc<SharedSocket, Global>,
}

impl Socket {
    /// One more owner.
    pub fn new(shared: Arc<SharedSocket, Global>) -> Socket {
        Socket { shared }
    }

    /// One more owner of the same socket.
    pub fn of(shared: &Arc<SharedSocket, Global>) -> Result<Socket, AllocError> {
        Ok(Socket::new(Arc::try_clone(shared)?))
    }

    pub fn stream(&self) -> &TcpStream {
        self.shared.stream()
    }

    /// Reads as `read` does, and leaves the bytes for the next call.
    pub fn peek(&self, buf: &mut [u8]) -> io::Result<usize>
        ensures { ReadsAtMost result buf.new }
    {
        let peeked = self.stream().peek(buf);
        self.shared.note(&peeked);
        peeked
    }
}

impl Read for Socket {
    fn read(&mut self, buf: &mut [u8]) -> io::Result<usize> {
        let mut stream = self.stream();
        let read = stream.read(buf);
        self.shared.note(&read);
        read
    }
}

impl Write for Socket {
    /// A write that a signal interrupts is made again: the system doesn't, for a socket whose writes end after a while.
    fn write(&mut self, buf: &[u8]) -> io::Result<usize> {
        let mut stream = self.stream();
        for _ in 1..MOST_TRIES {
            match stream.write(buf) {
                Err(error) if error.kind() == ErrorKind::Interrupted => {}
                written => {
                    self.shared.note_write(&written);
                    return written;
                }
            }
        }
        let written = stream.write(buf);
        self.shared.note_write(&written);
        written
    }

    fn flush(&mut self) -> io::Result<()>
        ensures { IsOk result }
    {
        Ok(())
    }
}

impl HangUp for Socket {
    fn hang_up(&self) {
        self.stream().hang_up();
    }

    fn close_writes(&self) {
        self.stream().close_writes();
    }

    fn limit_waits(&self, wait: u64) {
        self.stream().limit_waits(wait);
    }

    fn note_stall(&self) {
        self.shared.note_stall();
    }

    fn failure(&self) -> Option<WireFailure> {
        self.shared.failure()
    }
}

impl TryWrite for Socket {
    fn try_write(&mut self, buf: &[u8]) -> io::Result<usize> {
        let flags = net::MSG_DONTWAIT | net::MSG_NOSIGNAL;
        let sent = unsafe { net::send(self.stream().as_raw_fd(), buf, flags) };
        if let Ok(sent) = usize::try_from(sent) {
            return Ok(sent);
        }
        let error = io::Error::from_raw_os_error(os::errno());
        match error.kind() {
            ErrorKind::WouldBlock | ErrorKind::Interrupted => Ok(0),
            _ => {
                self.shared.note_error(&error);
                Err(error)
            }
        }
    }
}
