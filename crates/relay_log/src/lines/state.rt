//! The lines that wait to be written, as a value.
//!
//! Each change returns what has to be told to the threads that wait for it, so none is held back.
ghost use Rattle.std.specs.Prelude.{◌≡◌, ◌+◌, ◌∷◌, [], ◌++◌, ◌<◌, ◌≤◌, ◌↔◌, ℕ, length, true, false, None, IsTrue, IfOk};
ghost use Rattle.relay_accounts.specs.Capped.{capped};
ghost use Rattle.relay_log.specs.declared.lines.state.Next.TheVariants.{Missed};
ghost use Rattle.relay_log.specs.Backlogs.{lost_with};
ghost use Rattle.relay_log.specs.Nexts.{IfWrites, IsEnd};

use crate::backlog::{Backlog, Waiting};
use server_counts::ServerCounts;
use std::alloc::{AllocError, Global};
use std::sync::Condvar;
use std::time::Instant;

/// The lines that wait to be written, each a `T`.
pub(super) struct State<T> {
    lines: Backlog<T>,
    /// Until when threads wait for room. No thread waits before the server stops.
    room_until: Option<Instant>,
    /// No line comes any more.
    is_closed: bool,
    /// All lines are written.
    is_written: bool,
}

impl<T: Drop> Drop for State<T> {
    fn drop(self) {
        let State {
            lines: _,
            room_until: _,
            is_closed: _,
            is_written: _,
        } = self;
    }
}

/// Something changed of which no thread that waits was told since, and `dropped` lines were dropped that the server hasn't counted.
/// It has no `Drop`, so that it ends in `tell`.
pub(super) struct Changed {
    dropped: u64,
}

/// A line was taken, and no thread that waits for room was told since. It has no `Drop`, so that it ends in `tell`.
pub(super) struct RoomMade(());

/// What the writing thread does next.
pub(super) enum Next<T> {
    Write(Waiting<T>, RoomMade),
    /// Logs how many lines were dropped.
    Missed(u64),
    End(Changed),
}

impl Changed {
    /// Counts the dropped lines. Wakes the thread that writes, and one that waits until all is written.
    pub(super) fn tell(self, changed: &Condvar, counts: &ServerCounts) {
        let Changed { dropped } = self;
        if dropped > 0 {
            counts.drop_lines(dropped);
        }
        changed.notify_all();
    }
}

impl RoomMade {
    /// Wakes a thread that waits for room.
    pub(super) fn tell(self, has_room: &Condvar) {
        let RoomMade(()) = self;
        has_room.notify_one();
    }
}

impl<T: Drop> State<T> {
    /// Nothing waits.
    pub(super) fn new(alloc: Global) -> Result<State<T>, AllocError>
        ensures lines { IfOk result (λ state. state.lines ≡ record { waiting = []; missed = 0 }) }
        ensures goes_on { IfOk result (λ state. (state.room_until ≡ None) × (state.is_closed ≡ false) × (state.is_written ≡ false)) }
    {
        Ok(State {
            lines: Backlog::new(alloc)?,
            room_until: None,
            is_closed: false,
            is_written: false,
        })
    }

    /// Returns whether there is nothing for the writing thread to do.
    pub(super) fn is_quiet(&self) -> bool
        ensures { IsTrue result ↔ ((self.now.lines.waiting ≡ []) × (self.now.lines.missed ≡ 0) × (self.now.is_closed ≡ false)) }
    {
        self.lines.is_empty() && !self.is_closed
    }

    /// Returns whether one more line finds no room.
    pub(super) fn is_full(&self) -> bool
        ensures { IsTrue result ↔ (1024 ≤ length self.now.lines.waiting) }
    {
        self.lines.is_full()
    }

    /// Returns whether all lines are written.
    pub(super) fn is_written(&self) -> bool
        ensures { result ≡ self.now.is_written }
    {
        self.is_written
    }

    /// Returns until when threads wait for room. `None` before the server stops.
    pub(super) fn room_until(&self) -> Option<Instant>
        ensures { result ≡ self.now.room_until }
    {
        self.room_until
    }

    /// Adds a line. If there is no room, it is dropped and counted.
    pub(super) fn put(&mut self, line: T) -> Changed
        ensures kept { length self.old.lines.waiting < 1024 → self.new ≡ record self.old { lines = record { waiting = self.old.lines.waiting ++ record { missed = self.old.lines.missed; item = line } ∷ []; missed = 0 } } }
        ensures full { 1024 ≤ length self.old.lines.waiting → self.new ≡ record self.old { lines = record self.old.lines { missed = capped (self.old.lines.missed + 1) } } }
        ensures none_dropped { length self.old.lines.waiting < 1024 → result.dropped ≡ 0 }
        ensures one_dropped { 1024 ≤ length self.old.lines.waiting → result.dropped ≡ 1 }
    {
        let dropped = if self.lines.is_full() { 1 } else { 0 };
        self.lines.put(line);
        Changed { dropped }
    }

    /// Counts lines that couldn't be made, or whose threads haven't ended.
    pub(super) fn miss(&mut self, count: u64) -> Changed
        ensures missed { self.new ≡ record self.old { lines = record self.old.lines { missed = capped (self.old.lines.missed + count) } } }
        ensures dropped { result.dropped ≡ count }
    {
        self.lines.miss_all(count);
        Changed { dropped: count }
    }

    /// Threads that log wait for room until then.
    pub(super) fn wait_for_room(&mut self, until: Option<Instant>)
        ensures { self.new ≡ record self.old { room_until = until } }
    {
        self.room_until = until;
    }

    /// No line comes any more.
    pub(super) fn close(&mut self) -> Changed
        ensures closed { self.new ≡ record self.old { is_closed = true } }
        ensures none_dropped { result.dropped ≡ 0 }
    {
        self.is_closed = true;
        Changed { dropped: 0 }
    }

    /// Drops what waits, and counts it with what was missed before.
    pub(super) fn drop_all(&mut self) -> Changed
        ensures dropped { result.dropped ≡ length self.old.lines.waiting }
        ensures waiting { self.new.lines.waiting ≡ [] }
        ensures missed { capped self.new.lines.missed ≡ capped (self.old.lines.missed + lost_with self.old.lines.waiting) }
        ensures same { self.new ≡ record self.old { lines = self.new.lines } }
    {
        let dropped = self.lines.drop_all();
        Changed { dropped }
    }

    /// Takes what the writing thread does next, if it isn't quiet: the lines in their order, then those that were dropped.
    pub(super) fn next(&mut self) -> Next<T>
        ensures line { IfWrites result (λ line. self.old.lines.waiting ≡ line ∷ self.new.lines.waiting) }
        ensures keeps_missed { IfWrites result (λ line. self.new ≡ record self.old { lines = record self.old.lines { waiting = self.new.lines.waiting } }) }
        ensures missed { (count : ℕ) → result ≡ Missed count → (self.old.lines.waiting ≡ []) × (count ≡ self.old.lines.missed) × (0 < count) }
        ensures reported { (count : ℕ) → result ≡ Missed count → self.new ≡ record self.old { lines = record self.old.lines { missed = 0 } } }
        ensures end { IsEnd result → (self.old.lines.waiting ≡ []) × (self.old.lines.missed ≡ 0) × (self.new ≡ record self.old { is_written = true }) }
    {
        if let Some(line) = self.lines.take() {
            return Next::Write(line, RoomMade(()));
        }
        match self.lines.take_missed() {
            0 => {
                self.is_written = true;
                Next::End(Changed { dropped: 0 })
            }
            missed => Next::Missed(missed),
        }
    }
}
