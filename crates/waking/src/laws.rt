//! What holds over every schedule.
ghost use Rattle.std.specs.Prelude.{ℕ, List};
ghost use Rattle.waking.specs.Machine.{Act, Ran, State, start};
ghost use Rattle.waking.specs.Laws.{IsRemembered, view_of};

/// Whatever the mounts, the players, their writers and the schedule, no player is forgotten: while its writer sleeps and it is to
/// be looked at, somebody is on the way to wake the writer, or the sleep ends by itself for this player's sake.
pub fn no_player_is_forgotten()
    ensures { (mount_of writer_of : ℕ → ℕ) (acts : List Act) (s : State) (player : ℕ) → Ran (start mount_of writer_of) acts s
        → IsRemembered (view_of s player) }
{}
