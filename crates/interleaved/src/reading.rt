//! A source over one of std's readers.
ghost use Rattle.std.specs.Prelude.{◌≡◌, ◌^◌, ◌≤◌, true, false};
ghost use Rattle.std.specs.Io.KnownBytes.{Consumes};

use crate::device::{Failed, Source};
use std::io::Read;

/// So many bytes are given before a reading fails.
const MOST_BYTES: u64 = 1 << 63;

/// One of std's readers as a source.
///
/// It fails at an error of the reader, and at a read into a buffer that isn't empty after 2^63 bytes
/// were given. Once it has failed it leaves the reader alone.
#[derive(Drop)]
pub struct Reading<R> {
    inner: R,
    left: u64,
    failed: bool,
    ghost at_most: { left ≤ 2 ^ 63 },
}

impl<R: Read + Drop> Reading<R> {
    /// A source of all that the reader gives.
    pub fn new(inner: R) -> Reading<R>
        ensures incoming { ⟦<Reading<R> as Source>⟧.incoming result ≡ R.remaining inner }
        ensures bound { ⟦<Reading<R> as Source>⟧.bound result ≡ 2 ^ 63 }
        ensures failed { ⟦<Reading<R> as Source>⟧.failed result ≡ false }
    {
        Reading {
            inner,
            left: MOST_BYTES,
            failed: false,
        }
    }

    /// The reader, with what it has left.
    pub fn into_inner(self) -> R
        ensures { R.remaining result ≡ ⟦<Reading<R> as Source>⟧.incoming self }
    {
        self.inner
    }
}

impl<R: Read + Drop> Source for Reading<R> {
    ghost incoming = { λ r. R.remaining r.inner };

    ghost bound = { λ r. r.left };

    ghost failed = { λ r. r.failed };

    ghost gives = { λ old bytes new. Consumes (R.remaining old.inner) (R.remaining new.inner) bytes };

    fn read(&mut self, buf: &mut [u8]) -> Result<usize, Failed> {
        if self.failed {
            return Err(Failed);
        }
        if self.left == 0 && !buf.is_empty() {
            self.failed = true;
            return Err(Failed);
        }
        let most = (buf.len() as u64).min(self.left) as usize;
        match self.inner.read(&mut buf[..most]) {
            Ok(given) => {
                self.left -= given as u64;
                Ok(given)
            }
            Err(_) => {
                self.failed = true;
                Err(Failed)
            }
        }
    }

    fn left(&self) -> u64 {
        self.left
    }

    fn has_failed(&self) -> bool {
        self.failed
    }
}
