//! A runtime without a clock, for tests.
use std::fmt::Display;
use std::io;
use std::io::ErrorKind;
use std::process::Abort;
use std::sync::Wait;
use std::thread::Threads;
use std::time::{Clock, Duration};

/// A runtime whose clock can't be read. It sleeps as the one in it does.
#[derive(Clone, Copy, Drop)]
pub(crate) struct Unreadable<R> {
    pub(crate) rt: R,
}

impl<R: Threads> Threads for Unreadable<R> {}

impl<R: Wait> Wait for Unreadable<R> {}

impl<R: Clock> Clock for Unreadable<R> {
    fn monotonic(&self) -> io::Result<Duration> {
        Err(io::Error::from(ErrorKind::Unsupported))
    }

    fn since_1970(&self) -> io::Result<Duration> {
        self.monotonic()
    }

    fn sleep(&self, duration: Duration) {
        self.rt.sleep(duration)
    }
}

impl<R: Abort> Abort for Unreadable<R> {
    fn abort(&self) -> ! {
        self.rt.abort()
    }

    fn exit(&self, code: i32) -> ! {
        self.rt.exit(code)
    }

    fn panic<D: Display + Drop>(&self, message: D) -> ! {
        self.rt.panic(message)
    }
}
