//! What an intake reads into.
ghost use Rattle.std.specs.Prelude.{◌≡◌, ◌+◌, ◌<◌, ◌≤◌, [], true, false, length, take, IfOk, OnOk, OnErr};
ghost use Rattle.std.specs.Io.KnownBytes.{Consumes, IsAtEnd, Keeps};
ghost use Rattle.rtsp_message.specs.Pieces.{bytes_in};

use interleaved::{Failed, Source};
use std::alloc::Global;

/// The most bytes that are read from a source at once: one system call mostly brings all that a publisher has sent since the
/// last one.
const PIECE: usize = 65_536;

/// How many bytes are read at once at first. Requests fit, and memory that nothing is read into isn't taken.
const FIRST_PIECE: usize = 4_096;

/// Room for what is read from a source at once, which grows as reads fill it.
#[derive(Drop)]
pub(crate) enum Piece {
    First([u8; FIRST_PIECE]),
    Longer(Vec<u8>),
}

impl Piece {
    /// Room for 4,096 bytes.
    pub(crate) fn new() -> Piece
        ensures { length (bytes_in result) ≡ 4_096 }
    {
        Piece::First([0; FIRST_PIECE])
    }

    /// Returns its bytes.
    pub(crate) fn as_slice(&self) -> &[u8]
        ensures { result.now ≡ bytes_in self.now }
    {
        match self {
            Piece::First(bytes) => bytes.as_slice(),
            Piece::Longer(bytes) => bytes.as_slice(),
        }
    }

    /// Makes it twice as long if a read brought `held` bytes, which fill it, and if there is memory. What it has is read anew.
    pub(crate) fn lengthen(&mut self, alloc: Global, held: usize)
        requires { length (bytes_in self.old) ≤ 65_536 }
        ensures most { length (bytes_in self.new) ≤ 65_536 }
        ensures longer { length (bytes_in self.old) ≤ length (bytes_in self.new) }
    {
        let len = self.as_slice().len();
        if held < len || len == PIECE {
            return;
        }
        if let Ok(bytes) = Vec::from_elem(alloc, 0, (len * 2).min(PIECE)) {
            *self = Piece::Longer(bytes);
        }
    }

    /// Reads bytes of a source to its front, as `Source::read` does.
    pub(crate) fn read_from<S: Source>(&mut self, source: &mut S) -> Result<usize, Failed>
        ensures room { length (bytes_in self.new) ≡ length (bytes_in self.old) }
        ensures count { IfOk result (λ n. n ≤ length (bytes_in self.new)) }
        ensures bytes { IfOk result (λ n. Consumes (S.incoming source.old) (S.incoming source.new) (take n (bytes_in self.new))) }
        ensures gave { IfOk result (λ n. S.gives source.old (take n (bytes_in self.new)) source.new) }
        ensures end { IfOk result (λ n. n ≡ 0 → 0 < length (bytes_in self.new) → IsAtEnd (S.incoming source.new)) }
        ensures left { IfOk result (λ n. S.bound source.new + n ≡ S.bound source.old) }
        ensures working { OnOk result ((S.failed source.old ≡ false) × (S.failed source.new ≡ false)) }
        ensures refused { OnErr result (S.failed source.new ≡ true) }
        ensures refused_moves_none { OnErr result (Keeps (S.incoming source.old) (S.incoming source.new)) }
        ensures refused_gave { OnErr result (S.gives source.old [] source.new) }
        ensures refused_left { OnErr result (S.bound source.new ≡ S.bound source.old) }
        ensures stays { S.failed source.old ≡ true → source.new ≡ source.old }
    {
        match self {
            Piece::First(bytes) => source.read(bytes),
            Piece::Longer(bytes) => source.read(bytes),
        }
    }
}
