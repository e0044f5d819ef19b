//! A sink that counts the bytes that it took.
ghost use Rattle.std.specs.Prelude.{◌≡◌};

use interleaved::{Failed, Sink, TrySink};

/// A sink that counts the bytes that it took; for a socket, those that the system took.
#[derive(Drop)]
pub struct Counted<W: Sink> {
    inner: W,
    taken: u64,
}

impl<W: Sink + Drop> Counted<W> {
    /// Nothing was written to it yet.
    pub(crate) fn new(inner: W) -> Counted<W>
        ensures { result ≡ record { inner = inner; taken = 0 } }
    {
        Counted { inner, taken: 0 }
    }
}

impl<W: Sink> Counted<W> {
    /// Returns how many bytes it has taken.
    pub(crate) fn taken(&self) -> u64
        ensures { result ≡ self.now.taken }
    {
        self.taken
    }
}

impl<W: Sink> Sink for Counted<W> {
    ghost written = { λ c. W.written c.inner };

    ghost failed = { λ c. W.failed c.inner };

    fn write(&mut self, bytes: &[u8]) -> Result<usize, Failed> {
        let count = self.inner.write(bytes)?;
        self.taken = self.taken.saturating_add(count as u64);
        Ok(count)
    }

    fn has_failed(&self) -> bool {
        self.inner.has_failed()
    }
}

impl<W: TrySink> TrySink for Counted<W> {
    ghost takes = { λ old bytes count new. W.takes old.inner bytes count new.inner };

    fn try_write(&mut self, bytes: &[u8]) -> Result<usize, Failed> {
        let count = self.inner.try_write(bytes)?;
        self.taken = self.taken.saturating_add(count as u64);
        Ok(count)
    }
}
