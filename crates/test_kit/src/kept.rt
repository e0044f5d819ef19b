//! A runtime whose standard error is kept.
use log::kv::Source;
use log::span::Spans;
use log::{Line, Log, Metadata, Record};
use std::alloc::{AllocError, Global};
use std::fmt::Display;
use std::io;
use std::io::Eprint;
use std::sync::{Mutex, Wait};
use std::thread::Threads;
use std::time::{Clock, Duration};

/// A runtime whose standard error is a list of lines, which all copies of it share.
#[derive(Clone, Copy, Drop)]
pub struct Kept<R> {
    rt: R,
    alloc: Global,
    lines: &'static Mutex<Vec<String>>,
}

impl<R: Drop> Kept<R> {
    /// Nothing was written. The list exists while the program runs.
    pub fn new(rt: R, alloc: Global) -> Result<Kept<R>, AllocError> {
        let lines = Box::new(alloc, Mutex::new(Vec::new(alloc)))?;
        Ok(Kept {
            rt,
            alloc,
            lines: Box::leak(lines),
        })
    }
}

impl<R: Wait> Kept<R> {
    /// A copy of the lines that were written.
    pub fn lines(&self) -> Result<Vec<String>, AllocError> {
        let lines = self.lines.lock(&self.rt);
        let mut copied = Vec::with_capacity(self.alloc, lines.len())?;
        for line in lines.iter() {
            copied.push(String::from_str(self.alloc, line.as_str())?)?;
        }
        Ok(copied)
    }
}

impl<R: Wait> Eprint for Kept<R> {
    fn eprint<D: Display + Drop>(&self, value: D) -> io::Result<()> {
        self.eprintln(value)
    }

    fn eprintln<D: Display + Drop>(&self, value: D) -> io::Result<()> {
        let line = String::format(self.alloc, value)?;
        self.lines.lock(&self.rt).push(line)?;
        Ok(())
    }
}

impl<R: Wait> Log for Kept<R> {
    fn enabled(&self, _metadata: &Metadata<'_>) -> bool {
        true
    }

    fn log<D: Display, K: Source, S: Spans>(&self, record: &Record<'_, D, K, S>) {
        if let Ok(line) = String::format(self.alloc, Line::new(record)) {
            let _ = self.lines.lock(&self.rt).push(line);
        }
    }

    fn flush(&self) {}

    fn target(&self) -> &str {
        ""
    }
}

impl<R: Threads> Threads for Kept<R> {}

impl<R: Wait> Wait for Kept<R> {}

impl<R: Clock> Clock for Kept<R> {
    fn monotonic(&self) -> io::Result<Duration> {
        self.rt.monotonic()
    }

    fn since_1970(&self) -> io::Result<Duration> {
        self.rt.since_1970()
    }

    fn sleep(&self, duration: Duration) {
        self.rt.sleep(duration)
    }
}
