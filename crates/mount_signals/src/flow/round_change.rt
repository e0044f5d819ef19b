//! A change of a player's standing in its mount's round. It returns a value that only the telling of the publisher spends.
ghost use Rattle.std.specs.Prelude.{◌≡◌, ◌<◌, ◌↔◌, IsTrue, slice_set};
ghost use Rattle.pacing.specs.declared.standing.Standing.TheVariants.{Absent, Behind};
ghost use Rattle.pacing.specs.Rounds.{IsLevel, awaited, levelled, reached, standing_of};

use pacing::Round;
use std::sync::Condvar;

/// A player's standing was changed, and the publisher that may wait for it wasn't told. It has no `Drop`, so that it ends in `tell`.
pub(super) struct RoundChanged {
    was_last: bool,
    is_level: bool,
}

/// A player has left its mount's round: no publisher waits for it. How a player's frames ended is told with it.
#[derive(Clone, Copy, Drop)]
pub struct LeftPace(());

impl RoundChanged {
    /// A player takes a seat. It isn't waited for until it has taken all.
    pub(super) fn join(round: &mut Round, seat: usize) -> RoundChanged
        ensures new { round.new ≡ record round.old { players = slice_set round.old.players seat Behind } }
        ensures last { IsTrue result.was_last ↔ ((0 < awaited round.old.players) × (awaited round.new.players ≡ 0)) }
    {
        let was_last = round.join(seat);
        RoundChanged::at(round, seat, was_last)
    }

    /// A player leaves its seat.
    pub(super) fn leave(round: &mut Round, seat: usize) -> (RoundChanged, LeftPace)
        ensures new { round.new ≡ record round.old { players = slice_set round.old.players seat Absent } }
        ensures last { IsTrue result.0.was_last ↔ ((0 < awaited round.old.players) × (awaited round.new.players ≡ 0)) }
    {
        let was_last = round.leave(seat);
        (RoundChanged::at(round, seat, was_last), LeftPace(()))
    }

    /// A player had nothing more to take when `at` packets were published.
    pub(super) fn level(round: &mut Round, seat: usize, at: u64) -> RoundChanged
        ensures new { round.new ≡ record round.old { players = slice_set round.old.players seat (levelled round.old.target at (standing_of round.old.players seat)) } }
        ensures last { IsTrue result.was_last ↔ ((0 < awaited round.old.players) × (awaited round.new.players ≡ 0)) }
        ensures level { IsTrue result.is_level ↔ IsLevel (standing_of round.new.players seat) }
    {
        let was_last = round.level(seat, at);
        RoundChanged::at(round, seat, was_last)
    }

    /// A player has taken `at` packets, and perhaps not all.
    pub(super) fn reach(round: &mut Round, seat: usize, at: u64) -> RoundChanged
        ensures new { round.new ≡ record round.old { players = slice_set round.old.players seat (reached round.old.target at (standing_of round.old.players seat)) } }
        ensures last { IsTrue result.was_last ↔ ((0 < awaited round.old.players) × (awaited round.new.players ≡ 0)) }
        ensures level { IsTrue result.is_level ↔ IsLevel (standing_of round.new.players seat) }
    {
        let was_last = round.reach(seat, at);
        RoundChanged::at(round, seat, was_last)
    }

    /// The round is in this state after a change of a seat, whose player was the last that was awaited or not.
    fn at(round: &Round, seat: usize, was_last: bool) -> RoundChanged
        ensures last { result.was_last ≡ was_last }
        ensures level { IsTrue result.is_level ↔ IsLevel (standing_of round.now.players seat) }
    {
        RoundChanged {
            was_last,
            is_level: round.is_level(seat),
        }
    }

    /// Returns whether the player keeps up since, and isn't awaited.
    pub(super) fn is_level(&self) -> bool
        ensures { result ≡ self.now.is_level }
    {
        self.is_level
    }

    /// Wakes the publisher if it was the last player that it waits for, which has taken all or left.
    pub(super) fn tell(self, over: &Condvar) {
        let RoundChanged {
            was_last,
            is_level: _,
        } = self;
        if was_last {
            over.notify_all();
        }
    }
}
