//! For how long a sweep may pass over a player.
ghost use Rattle.std.specs.Prelude.{◌≡◌, ◌↔◌, IsTrue};

use std::marker::Model;

/// There is nothing to do for a player after this many wake-ups of its mount's players, until there are more. `PlayerState::quiet` alone
/// makes one.
///
/// Its model is how many.
#[derive(Clone, Copy, Debug, PartialEq, Eq, Drop)]
pub struct Quiet {
    player_wakeups: u64,
}

impl Model for Quiet {
    ghost use Rattle.std.specs.Prelude.{ℕ};

    ghost Value = { ℕ };

    ghost view = { λ q. q.player_wakeups };

    ghost inverse = { λ q. record { player_wakeups = q } };
}

impl Quiet {
    /// After so many.
    pub(crate) fn after(player_wakeups: u64) -> Quiet
        ensures { result ≡ player_wakeups }
    {
        Quiet { player_wakeups }
    }

    /// Whether a sweep may pass over the player, where its mount's players were woken so often.
    pub fn lasts(self, player_wakeups: u64) -> bool
        ensures { IsTrue result ↔ (self ≡ player_wakeups) }
    {
        self.player_wakeups == player_wakeups
    }
}
