//! A source in memory.
ghost use Rattle.std.specs.Prelude.{◌≡◌, ◌↔◌, ◌+◌, ◌<◌, ◌≤◌, ◌⊎◌, ◌++◌, [], Some, true, false, length, take, drop, IfOk, OnOk, OnErr, IfSome, IsErr};
ghost use Rattle.interleaved.specs.Devices.{GivesPiece, RefusesRead};

use crate::device::{Failed, Source};
use std::marker::Model;

/// A source that gives bytes in memory, in pieces, and can be made to fail on the way.
#[derive(Drop)]
pub struct ListSource {
    bytes: Vec<u8>,
    given: usize,
    piece: usize,
    fail_at: Option<usize>,
    failed: bool,
}

impl Model for ListSource {
    ghost use Rattle.std.specs.Prelude.{◌≤◌, length};
    ghost use Rattle.std.specs.Option.{ForSome};
    ghost use Rattle.interleaved.specs.Devices.{ListState};

    ghost Value = { ListState };

    ghost view = { λ s. record { bytes = s.bytes.items; given = s.given; piece = s.piece; fail_at = s.fail_at; failed = s.failed } };

    ghost invariant = { λ s. (s.given ≤ length s.bytes.items) × (1 ≤ s.piece) × ForSome s.fail_at (λ place. s.given ≤ place) };
}

impl ListSource {
    /// A source of `bytes`, at most `piece` of them a read. It fails at the place `fail_at`, if any:
    /// the bytes before that place are given, and the read that would go on from there is refused. At
    /// a place past the last byte it never fails.
    pub fn new(bytes: Vec<u8>, piece: usize, fail_at: Option<usize>) -> ListSource
        requires { 1 ≤ piece }
        ensures state { result ≡ record { bytes = bytes.items; given = 0; piece = piece; fail_at = fail_at; failed = false } }
        ensures incoming { ⟦<ListSource as Source>⟧.incoming result ≡ Some bytes.items }
    {
        ListSource {
            bytes,
            given: 0,
            piece,
            fail_at,
            failed: false,
        }
    }

    /// How many bytes a read into so much room gives before the source ends or fails.
    fn next_count(&self, room: usize) -> usize
        ensures room { result ≤ room }
        ensures piece { result ≤ self.now.piece }
        ensures left { self.now.given + result ≤ length self.now.bytes }
        ensures place { IfSome self.now.fail_at (λ place. self.now.given + result ≤ place) }
        ensures progress { 0 < room → self.now.given < length self.now.bytes → (self.now.fail_at ≡ Some self.now.given) ⊎ (0 < result) }
    {
        let left = self.bytes.len() - self.given;
        let most = left.min(self.piece).min(room);
        match self.fail_at {
            Some(place) => most.min(place - self.given),
            None => most,
        }
    }
}

impl Source for ListSource {
    ghost incoming = { λ s. Some (drop s.given s.bytes) };

    ghost bound = { λ s. length (drop s.given s.bytes) };

    ghost failed = { λ s. s.failed };

    ghost gives = { GivesPiece };

    /// At most a piece, up to the end or the place where it fails. Refused exactly where `RefusesRead`
    /// says.
    fn read(&mut self, buf: &mut [u8]) -> Result<usize, Failed>
        ensures count { IfOk result (λ n. n ≤ length buf.new) }
        ensures bytes { IfOk result (λ n. drop self.old.given self.old.bytes ≡ take n buf.new ++ drop self.new.given self.new.bytes) }
        ensures end { IfOk result (λ n. n ≡ 0 → 0 < length buf.new → drop self.new.given self.new.bytes ≡ []) }
        ensures left { IfOk result (λ n. length (drop self.new.given self.new.bytes) + n ≡ length (drop self.old.given self.old.bytes)) }
        ensures working { OnOk result ((self.old.failed ≡ false) × (self.new.failed ≡ false)) }

        ensures piece { IfOk result (λ n. n ≤ self.old.piece) }
        ensures gave { IfOk result (λ n. GivesPiece self.old (take n buf.new) self.new) }
        ensures moved { IfOk result (λ n. self.new ≡ record self.old { given = self.old.given + n }) }
        ensures place { IfSome self.new.fail_at (λ place. self.new.given ≤ place) }

        ensures refused { OnErr result (self.new ≡ record self.old { failed = true }) }
        ensures refused_gave { OnErr result (GivesPiece self.old [] self.new) }
        ensures refused_where { IsErr result ↔ RefusesRead self.old (length buf.old) }
    {
        if self.failed || (!buf.is_empty() && self.fail_at == Some(self.given)) {
            self.failed = true;
            return Err(Failed);
        }
        let count = self.next_count(buf.len());
        buf[..count].copy_from_slice(&self.bytes[self.given..self.given + count]);
        self.given += count;
        Ok(count)
    }

    fn left(&self) -> u64 {
        (self.bytes.len() - self.given) as u64
    }

    fn has_failed(&self) -> bool {
        self.failed
    }
}
