//! A bounded queue whose items wait until they are taken.
ghost use Rattle.std.specs.Prelude.{◌≡◌, ◌+◌, ◌∷◌, [], ◌++◌, ◌<◌, ◌≤◌, length, IfOk, IfSome, IfNone, IsTrue, ◌↔◌};
ghost use Rattle.relay_accounts.specs.Capped.{capped};
ghost use Rattle.relay_log.specs.Backlogs.{lost_with};

use crate::limits::WAITING_LINES;
use std::alloc::{AllocError, Global};
use std::collections::VecDeque;
use std::marker::Model;
use std::mem;

/// An item that waits, and how many found no room between the previous one and it.
#[derive(Debug, PartialEq, Eq, Drop)]
pub struct Waiting<T> {
    pub missed: u64,
    pub item: T,
}

/// Items that wait, the oldest first, at most 1,024 of them. What finds no room is dropped and counted, and the next item
/// that is taken has the count. Allocates no memory after it is made.
#[derive(Drop)]
pub struct Backlog<T> {
    waiting: VecDeque<Waiting<T>>,
    missed: u64,
}

impl<T> Model for Backlog<T> {
    ghost use Rattle.std.specs.Prelude.{◌≡◌, ◌≤◌};
    ghost use Rattle.std.specs.VecDeque.{deque_capacity, deque_len};
    ghost use Rattle.relay_log.specs.Backlogs.{Backed};

    ghost Value = { Backed T };

    ghost view = { λ b. record { waiting = b.waiting.items; missed = b.missed } };

    ghost invariant = { λ b. (deque_len b.waiting ≤ 1024) × (deque_capacity b.waiting ≡ 1024) };
}

impl<T: Drop> Backlog<T> {
    /// Nothing waits.
    pub fn new(alloc: Global) -> Result<Backlog<T>, AllocError>
        ensures { IfOk result (λ b. b ≡ record { waiting = []; missed = 0 }) }
    {
        Ok(Backlog {
            waiting: VecDeque::with_capacity(alloc, WAITING_LINES)?,
            missed: 0,
        })
    }

    /// Returns whether nothing waits, and every missed item was reported.
    pub fn is_empty(&self) -> bool
        ensures { IsTrue result ↔ ((self.now.waiting ≡ []) × (self.now.missed ≡ 0)) }
    {
        self.waiting.is_empty() && self.missed == 0
    }

    /// Returns whether one more item finds no room.
    pub fn is_full(&self) -> bool
        ensures { IsTrue result ↔ (1024 ≤ length self.now.waiting) }
    {
        self.waiting.len() >= WAITING_LINES
    }

    /// Adds an item. If there is no room, it is dropped and counted.
    pub fn put(&mut self, item: T)
        ensures kept { length self.old.waiting < 1024 → self.new ≡ record { waiting = self.old.waiting ++ record { missed = self.old.missed; item = item } ∷ []; missed = 0 } }
        ensures full { 1024 ≤ length self.old.waiting → self.new ≡ record self.old { missed = capped (self.old.missed + 1) } }
    {
        if self.waiting.len() >= WAITING_LINES {
            self.miss();
            return;
        }
        let missed = mem::replace(&mut self.missed, 0);
        self.waiting.push_back_reserved(Waiting { missed, item });
    }

    /// Counts an item that couldn't be made.
    pub fn miss(&mut self)
        ensures { self.new ≡ record self.old { missed = capped (self.old.missed + 1) } }
    {
        self.miss_all(1);
    }

    /// Counts `count` items that couldn't be made.
    pub fn miss_all(&mut self, count: u64)
        ensures { self.new ≡ record self.old { missed = capped (self.old.missed + count) } }
    {
        self.missed = self.missed.saturating_add(count);
    }

    /// Takes the oldest item that waits.
    pub fn take(&mut self) -> Option<Waiting<T>>
        ensures missed { self.new.missed ≡ self.old.missed }
        ensures some { IfSome result (λ first. self.old.waiting ≡ first ∷ self.new.waiting) }
        ensures none { IfNone result ((self.old.waiting ≡ []) × (self.new.waiting ≡ [])) }
    {
        self.waiting.pop_front()
    }

    /// Returns how many found no room after the last item that waits. The caller reports them, and the count is reset.
    pub fn take_missed(&mut self) -> u64
        ensures count { result ≡ self.old.missed }
        ensures new { self.new ≡ record self.old { missed = 0 } }
    {
        mem::replace(&mut self.missed, 0)
    }

    /// Drops what waits, and counts it with what was missed before. Returns how many items it drops.
    pub fn drop_all(&mut self) -> u64
        ensures dropped { result ≡ length self.old.waiting }
        ensures waiting { self.new.waiting ≡ [] }
        ensures missed { capped self.new.missed ≡ capped (self.old.missed + lost_with self.old.waiting) }
    {
        let dropped = self.waiting.len() as u64;
        for _turn in 0..WAITING_LINES {
            match self.take() {
                Some(line) => self.miss_all(line.missed.saturating_add(1)),
                None => return dropped,
            }
        }
        dropped
    }
}
