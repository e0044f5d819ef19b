//! A sink over one of std's writers.
ghost use Rattle.std.specs.Prelude.{◌≡◌, ◌≤◌, true, false, length};
ghost use Rattle.std.specs.Io.{WritesAtMost};
ghost use Rattle.std.specs.Io.KnownBytes.{WriteAppends};

use crate::device::{Failed, Sink, TrySink};
use std::io;
use std::io::Write;

/// One of std's writers that can also be written to without waiting.
pub trait TryWrite: Write {
    /// Writes bytes from the front of `buf`, as many as are taken at once, and says how many: 0 where none is taken now,
    /// which is no error. As `write` where no more is said, which is right for a writer that never waits.
    fn try_write(&mut self, buf: &[u8]) -> io::Result<usize>
        ensures bound { WritesAtMost result buf.now }
        ensures bytes { WriteAppends (Self.contents self.old) (Self.contents self.new) result buf.now }
    {
        self.write(buf)
    }
}

/// One of std's writers as a sink.
///
/// It fails at an error of the writer, and where the writer takes none of some bytes. Once it has
/// failed it leaves the writer alone.
#[derive(Drop)]
pub struct Writing<W> {
    inner: W,
    failed: bool,
}

impl<W: Write + Drop> Writing<W> {
    /// A sink that writes all to the writer.
    pub fn new(inner: W) -> Writing<W>
        ensures written { ⟦<Writing<W> as Sink>⟧.written result ≡ W.contents inner }
        ensures failed { ⟦<Writing<W> as Sink>⟧.failed result ≡ false }
    {
        Writing {
            inner,
            failed: false,
        }
    }

    /// The writer, with what it holds.
    pub fn into_inner(self) -> W
        ensures { W.contents result ≡ ⟦<Writing<W> as Sink>⟧.written self }
    {
        self.inner
    }
}

impl<W: Write + Drop> Sink for Writing<W> {
    ghost written = { λ w. W.contents w.inner };

    ghost failed = { λ w. w.failed };

    fn write(&mut self, bytes: &[u8]) -> Result<usize, Failed> {
        if self.failed {
            return Err(Failed);
        }
        match self.inner.write(bytes) {
            Ok(taken) if taken > 0 || bytes.is_empty() => Ok(taken),
            _ => {
                self.failed = true;
                Err(Failed)
            }
        }
    }

    fn has_failed(&self) -> bool {
        self.failed
    }
}

impl<W: TryWrite + Drop> TrySink for Writing<W> {
    ghost takes = { λ _ bytes n _. n ≤ length bytes };

    fn try_write(&mut self, bytes: &[u8]) -> Result<usize, Failed> {
        if self.failed {
            return Err(Failed);
        }
        match self.inner.try_write(bytes) {
            Ok(taken) => Ok(taken),
            Err(_) => {
                self.failed = true;
                Err(Failed)
            }
        }
    }
}
