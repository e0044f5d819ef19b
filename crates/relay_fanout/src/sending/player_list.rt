//! The players of a writer, as a value.
ghost use Rattle.std.specs.Prelude.{◌≡◌, ◌↔◌, ◌+◌, ◌<◌, ◌≤◌, ◌^◌, ◌++◌, ◌∷◌, [], None, Some, IsTrue, filter, length, slice_get, IfOk, IfSome, ℕ, OnOk, OnErr};
ghost use Rattle.std.specs.Option.{option_copied};

use std::alloc::{AllocError, Global};
use std::marker::Model;
use waking::Quiet;

/// A player of a writer's list, and its turn: how often the list had changed before it came.
#[derive(Drop)]
pub(super) struct Listed<P> {
    pub(super) player: P,
    pub(super) turn: u64,
    /// For how long there is nothing to do for it, as its last look left it. `None` if it is to be looked at.
    quiet: Option<Quiet>,
}

/// A player of a mount.
pub(super) trait Wakeups {
    /// At some moment since its mount's players were last asked for, they had been woken so often.
    ghost were_woken: { Self → ℕ → Type 0 };

    /// Returns how often its mount's players were woken by now.
    fn player_wakeups(&self) -> u64
        ensures { were_woken self.now result };
}

impl<P> Listed<P> {
    /// Whether a sweep may pass over it, where its mount's players were woken so often.
    fn is_quiet(&self, player_wakeups: u64) -> bool
        ensures { IsTrue result ↔ (self.now.quiet ≡ Some player_wakeups) }
    {
        match self.quiet {
            Some(quiet) => quiet.lasts(player_wakeups),
            None => false,
        }
    }
}

/// The players of a writer, and how often one came or left. Each has a turn of its own.
///
/// Its model has both.
#[derive(Drop)]
pub(super) struct PlayerList<P> {
    listed: Vec<Listed<P>>,
    changes: u64,
}

impl<P> Model for PlayerList<P> {
    ghost use Rattle.std.specs.Prelude.{ℕ, All, ◌<◌};
    ghost use Rattle.relay_fanout.specs.PlayerLists.{Listing, CameBefore};

    ghost Value = { Listing P };

    ghost view = { λ l. record { listed = l.listed.items; changes = l.changes } };

    ghost invariant = { λ l. All (CameBefore l.changes) l.listed.items };
}

impl<P: Drop> PlayerList<P> {
    ghost use Rattle.relay_fanout.specs.PlayerLists.{Listing, HasTurn, is_other, noted_at, taken_out};

    /// Nobody has come.
    pub(super) fn new(alloc: Global) -> PlayerList<P>
        ensures { result ≡ record { listed = []; changes = 0 } }
    {
        PlayerList {
            listed: Vec::new(alloc),
            changes: 0,
        }
    }

    /// Returns how many players there are.
    pub(super) fn len(&self) -> usize
        ensures { result ≡ length self.now.listed }
    {
        self.listed.len()
    }

    /// Returns how often a player came or left.
    pub(super) fn changes(&self) -> u64
        ensures { result ≡ self.now.changes }
    {
        self.changes
    }

    /// Returns the player at a place.
    pub(super) fn get(&self, place: usize) -> Option<&Listed<P>>
        ensures { option_copied result ≡ slice_get self.now.listed place }
    {
        self.listed.get(place)
    }

    /// Adds a player after the others. Returns its turn, which no other player of the list has. The only error is out of memory,
    /// or a list that has changed 2^64 - 1 times.
    pub(super) fn add(&mut self, player: P) -> Result<u64, AllocError>
        ensures added { OnOk result (self.new ≡ record { listed = self.old.listed ++ record { player = player; turn = self.old.changes; quiet = None } ∷ []; changes = self.old.changes + 1 }) }
        ensures turn { IfOk result (λ turn. turn ≡ self.old.changes) }
        ensures own { IfOk result (λ turn. ¬ (HasTurn self.old.listed turn)) }
        ensures refused { OnErr result (self.new ≡ self.old) }
    {
        let turn = self.changes;
        let next = turn.checked_add(1).ok_or(AllocError)?;
        self.listed.push(Listed {
            player,
            turn,
            quiet: None,
        })?;
        self.changes = next;
        Ok(turn)
    }

    /// Notes what a look left of the player of this turn, if it is still at this place. Else nothing changes, and it is looked at
    /// again.
    pub(super) fn note(&mut self, place: usize, turn: u64, quiet: Option<Quiet>)
        ensures noted { self.new ≡ record self.old { listed = noted_at place turn quiet self.old.listed } }
    {
        if let Some(listed) = self.listed.get_mut(place) {
            if listed.turn == turn {
                listed.quiet = quiet;
            }
        }
    }

    /// Removes the player of this turn, if it is here. The others stay as they are.
    pub(super) fn remove(&mut self, turn: u64)
        ensures listed { self.new.listed ≡ filter (is_other turn) self.old.listed }
        ensures gone { ¬ (HasTurn self.new.listed turn) }
        ensures changed { self.old.changes + 1 < 2 ^ 64 → self.new.changes ≡ self.old.changes + taken_out self.old.listed self.new.listed }
    {
        let before = self.listed.len();
        self.listed.retain(|listed| listed.turn != turn);
        if self.listed.len() < before {
            self.changes = self.changes.saturating_add(1);
        }
    }
}

impl<P: Wakeups + Drop> PlayerList<P> {
    ghost use Rattle.relay_fanout.specs.PlayerLists.{ArePassed, IsToBeLookedAt};

    /// Returns the place of the first player from this one on that is to be looked at. If there is none, it is behind them all. It passes
    /// over a player only if there was nothing to do for it at its last look, and its mount's players weren't woken since.
    pub(super) fn next_place(&self, place: usize) -> usize
        ensures passed { ArePassed P.were_woken place result self.now.listed }
        ensures found { IfSome (slice_get self.now.listed result) (IsToBeLookedAt P.were_woken) }
        ensures on { place ≤ result }
    {
        for at in place..self.len() {
            let Some(listed) = self.get(at) else {
                return at;
            };
            if !listed.is_quiet(listed.player.player_wakeups()) {
                return at;
            }
        }
        place.max(self.len())
    }
}
