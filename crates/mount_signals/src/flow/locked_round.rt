//! A mount's round under its lock, and what its publisher sleeps on.
use crate::flow::round_change::{LeftPace, RoundChanged};
use pacing::Round;
use std::alloc::{AllocError, Global};
use std::sync::atomic::{AtomicU64, Ordering};
use std::sync::{Condvar, CondvarTimeouts, Mutex, Wait};
use std::time::{Clock, Duration};

/// A mount's round under its lock, how often rounds were opened, and what the publisher sleeps on.
///
/// The lock is held for a look at each seat or a change of one, and no other is taken meanwhile.
pub(super) struct LockedRound {
    round: Mutex<Round>,
    over: Condvar,
    /// How often a round was opened or players were given up.
    changes: AtomicU64,
    /// How many packets the last round asks for.
    target: AtomicU64,
}

impl Drop for LockedRound {
    fn drop(self) {
        let LockedRound {
            round: _,
            over: _,
            changes: _,
            target: _,
        } = self;
    }
}

impl LockedRound {
    /// The round of a mount with `seats` seats, none of which is taken.
    pub(super) fn new(alloc: Global, seats: usize) -> Result<LockedRound, AllocError> {
        Ok(LockedRound {
            round: Mutex::new(Round::new(alloc, seats)?),
            over: Condvar::new(),
            changes: AtomicU64::new(0),
            target: AtomicU64::new(0),
        })
    }

    /// Returns how often a round was opened or players were given up.
    pub(super) fn changes(&self) -> u64 {
        self.changes.load(Ordering::SeqCst)
    }

    /// Returns how many packets the last round asks for.
    pub(super) fn target(&self) -> u64 {
        self.target.load(Ordering::SeqCst)
    }

    /// A player takes a seat.
    pub(super) fn join(&self, rt: &impl Wait, seat: usize) -> RoundChanged {
        RoundChanged::join(&mut self.round.lock(rt), seat)
    }

    /// A player leaves its seat.
    pub(super) fn leave(&self, rt: &impl Wait, seat: usize) -> (RoundChanged, LeftPace) {
        RoundChanged::leave(&mut self.round.lock(rt), seat)
    }

    /// A player had nothing more to take at this cursor.
    pub(super) fn level(&self, rt: &impl Wait, seat: usize, cursor: u64) -> RoundChanged {
        RoundChanged::level(&mut self.round.lock(rt), seat, cursor)
    }

    /// A player has come to this cursor, and may have more to take.
    pub(super) fn reach(&self, rt: &impl Wait, seat: usize, cursor: u64) -> RoundChanged {
        RoundChanged::reach(&mut self.round.lock(rt), seat, cursor)
    }

    /// Wakes the publisher if the change lets it go on. The lock was given back before.
    pub(super) fn tell(&self, changed: RoundChanged) {
        changed.tell(&self.over);
    }

    /// Returns how many packets the slowest of the players that keep up has taken by these cursors, or `published`.
    pub(super) fn slowest(&self, rt: &impl Wait, cursors: &[AtomicU64], published: u64) -> u64 {
        let mut round = self.round.lock(rt);
        follow(&mut round, cursors);
        round.slowest(published)
    }

    /// Opens a round in which `target` packets are to be taken. Returns how many players are awaited.
    pub(super) fn open(&self, rt: &impl Wait, cursors: &[AtomicU64], target: u64) -> usize {
        let mut round = self.round.lock(rt);
        follow(&mut round, cursors);
        let awaited = round.open(target);
        self.target.store(target, Ordering::SeqCst);
        self.changes.fetch_add(1, Ordering::SeqCst);
        awaited
    }

    /// Sleeps until no player is awaited, for at most `most`. Returns how many players are still awaited.
    pub(super) fn wait<R: Wait + Clock>(&self, rt: &R, most: Duration) -> usize {
        let (round, _) = self
            .over
            .wait_timeout_while(rt, self.round.lock(rt), most, |round| {
                round.awaited() > 0
            });
        round.awaited()
    }

    /// Gives up the players that are still awaited.
    pub(super) fn give_up(&self, rt: &impl Wait) {
        if self.round.lock(rt).give_up() > 0 {
            self.changes.fetch_add(1, Ordering::SeqCst);
        }
    }
}

/// Reads how many packets each player that keeps up has taken.
fn follow(round: &mut Round, cursors: &[AtomicU64]) {
    for (seat, cursor) in cursors.iter().enumerate() {
        round.follow(seat, cursor.load(Ordering::SeqCst));
    }
}
