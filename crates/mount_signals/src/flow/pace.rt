//! How a publisher is slowed to the pace of the players that keep up.
ghost use Rattle.std.specs.Prelude.{◌≡◌, ◌≢◌, ◌↔◌, IsSome, IsTrue, None, Some};

use crate::flow::locked_round::LockedRound;
use crate::flow::round_change::LeftPace;
use std::alloc::{AllocError, Global};
use std::marker::Model;
use std::sync::Wait;
use std::sync::atomic::{AtomicU64, Ordering};
use std::time::{Clock, Duration};

/// The players of a mount as their publisher sees them, and what it waits on.
///
/// A player's thread, or its writer, stores its cursor after each of its writes. It changes its own standing only if it isn't
/// known to keep up or a round was opened since. The publisher's thread opens a round, wakes the players, and sleeps until
/// the last that it waits for has taken as many as the round asks for, or left.
///
/// The round's lock may be taken under the lock of a seat, with or without that of its writing side.
pub struct Pace {
    round: LockedRound,
    /// How many packets each seat's player has taken.
    cursors: Vec<AtomicU64>,
}

impl Drop for Pace {
    fn drop(self) {
        let Pace {
            round: _,
            cursors: _,
        } = self;
    }
}

/// What a player's thread knows of its own standing: the number of changes at which it was level, if it was. A player that joins
/// its mount's pace gets it.
///
/// Its model is that number.
#[derive(Clone, Copy, Drop)]
pub struct KnownLevel {
    at: Option<u64>,
}

impl Model for KnownLevel {
    ghost use Rattle.std.specs.Prelude.{ℕ, Option};

    ghost Value = { Option ℕ };

    ghost view = { λ known. known.at };

    ghost inverse = { λ known. record { at = known } };
}

impl KnownLevel {
    /// The state of a new player, which isn't known to keep up.
    fn new() -> KnownLevel
        ensures { result ≡ None }
    {
        KnownLevel { at: None }
    }

    /// Returns whether it was level since it came, or came back: a publisher may wait for it.
    pub fn was_level(self) -> bool
        ensures { IsTrue result ↔ IsSome self }
    {
        self.at.is_some()
    }

    /// Returns whether it is level, and no round was opened and no player given up since.
    fn is_level(self, changes: u64) -> bool
        ensures { IsTrue result ↔ (self ≡ Some changes) }
    {
        self.at == Some(changes)
    }

    /// Returns whether it was level, and a round was opened or players were given up since: a publisher may wait for it.
    fn may_be_awaited(self, changes: u64) -> bool
        ensures { IsTrue result ↔ (IsSome self × (self ≢ Some changes)) }
    {
        self.at.is_some() && self.at != Some(changes)
    }
}

impl Pace {
    /// The pace of a mount with `seats` seats, none of which is taken.
    pub(crate) fn new(alloc: Global, seats: usize) -> Result<Pace, AllocError> {
        let mut cursors = Vec::with_capacity(alloc, seats)?;
        for _ in 0..seats {
            cursors.push(AtomicU64::new(0))?;
        }
        Ok(Pace {
            round: LockedRound::new(alloc, seats)?,
            cursors,
        })
    }

    /// Stores the cursor of the player in a seat.
    pub(crate) fn stand(&self, seat: usize, cursor: u64) {
        if let Some(place) = self.cursors.get(seat) {
            place.store(cursor, Ordering::SeqCst);
        }
    }

    /// Returns the last stored cursor of the player in a seat.
    pub(crate) fn cursor(&self, seat: usize) -> u64 {
        match self.cursors.get(seat) {
            Some(place) => place.load(Ordering::SeqCst),
            None => 0,
        }
    }

    /// A player begins to take from its seat. The player before it has left.
    pub fn join(&self, rt: &impl Wait, seat: usize) -> KnownLevel
        ensures { result ≡ None }
    {
        let changed = self.round.join(rt, seat);
        self.round.tell(changed);
        KnownLevel::new()
    }

    /// A player takes no more.
    pub fn leave(&self, rt: &impl Wait, seat: usize) -> LeftPace {
        let (changed, left) = self.round.leave(rt, seat);
        self.round.tell(changed);
        left
    }

    /// A player had nothing more to take at this cursor.
    pub(crate) fn level(&self, rt: &impl Wait, seat: usize, cursor: u64, known: &mut KnownLevel) {
        let changes = self.follow_me(seat, cursor);
        if known.is_level(changes) {
            return;
        }
        let changed = self.round.level(rt, seat, cursor);
        // A player that is still awaited goes on reporting its cursor.
        if changed.is_level() {
            known.at = Some(changes);
        }
        self.round.tell(changed);
    }

    /// A player has come to this cursor, and may have more to take. One that isn't known to keep up has to take all first.
    pub(crate) fn reach(&self, rt: &impl Wait, seat: usize, cursor: u64, known: &mut KnownLevel) {
        let changes = self.follow_me(seat, cursor);
        if !known.may_be_awaited(changes) || cursor < self.round.target() {
            return;
        }
        let changed = self.round.reach(rt, seat, cursor);
        known.at = changed.is_level().then_some(changes);
        self.round.tell(changed);
    }

    /// Stores a player's cursor, and returns how often rounds were opened or players were given up.
    fn follow_me(&self, seat: usize, cursor: u64) -> u64 {
        self.stand(seat, cursor);
        self.round.changes()
    }

    /// Returns how many packets the slowest of the players that keep up has taken, or `published`.
    pub fn slowest(&self, rt: &impl Wait, published: u64) -> u64 {
        self.round.slowest(rt, self.cursors.as_slice(), published)
    }

    /// Opens a round in which `target` packets are to be taken. Returns how many players are awaited.
    pub fn open(&self, rt: &impl Wait, target: u64) -> usize {
        self.round.open(rt, self.cursors.as_slice(), target)
    }

    /// Sleeps until no player is awaited, for at most `most`. Returns how many players are still awaited.
    pub fn wait<R: Wait + Clock>(&self, rt: &R, most: Duration) -> usize {
        self.round.wait(rt, most)
    }

    /// Gives up the players that are still awaited.
    pub fn give_up(&self, rt: &impl Wait) {
        self.round.give_up(rt);
    }
}
