//! What a batch of frames is put into: the line without the calls that write it out.
ghost use Rattle.std.specs.Prelude.{◌≡◌, ◌+◌, ℕ, length};
ghost use Rattle.relay_accounts.specs.Capped.{capped};

use crate::sending::counted::Counted;
use interleaved::{Gathering, Sink};

/// The sink of a connection: a buffer, and after it the socket, whose bytes are counted.
pub(crate) type Line<W> = Gathering<Counted<W>>;

/// What frames are put into, which gathers them. It has no call that writes out what is gathered: that is for the caller that has
/// the line, once the batch is made.
pub(super) trait Batch: Sink {
    /// How many bytes are gathered.
    ghost gathered: { Self → ℕ };

    /// The place in the connection's bytes after what was put in so far.
    ghost place: { Self → ℕ };

    /// Returns how many bytes are gathered.
    fn gathered(&self) -> usize
        ensures { result ≡ gathered self.now };

    /// Returns the place in the connection's bytes after what was put in so far.
    fn place(&self) -> u64
        ensures { result ≡ place self.now };
}

impl<W: Sink + Drop> Batch for Line<W> {
    ghost gathered = { λ line. length line.kept };

    ghost place = { λ line. capped (line.inner.taken + length line.kept) };

    fn gathered(&self) -> usize {
        self.len()
    }

    fn place(&self) -> u64 {
        self.inner().taken().saturating_add(self.len() as u64)
    }
}
