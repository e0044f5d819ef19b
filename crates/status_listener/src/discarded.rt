//! How many bytes are discarded after an answer.
ghost use Rattle.std.specs.Prelude.{◌≡◌, ◌+◌, ◌≤◌, ◌↔◌, IsFalse, IsTrue};

use crate::limits::MOST_DISCARDED;

/// How many bytes of a connection were discarded after its answer: at most 1 MiB.
#[derive(Drop)]
pub(crate) struct Discarded {
    pub(crate) bytes: usize,
    ghost most: { bytes ≤ 1048576 },
}

impl Discarded {
    /// Nothing was discarded.
    pub(crate) fn nothing() -> Discarded
        ensures { result.bytes ≡ 0 }
    {
        Discarded { bytes: 0 }
    }

    /// Counts bytes that were discarded. Returns false, and counts none, if they would be more than 1 MiB in all.
    pub(crate) fn add(&mut self, count: usize) -> bool
        ensures fits { IsTrue result ↔ (self.old.bytes + count ≤ 1048576) }
        ensures counted { IsTrue result → self.new.bytes ≡ self.old.bytes + count }
        ensures refused { IsFalse result → self.new.bytes ≡ self.old.bytes }
    {
        if count > MOST_DISCARDED - self.bytes {
            return false;
        }
        self.bytes += count;
        true
    }
}
