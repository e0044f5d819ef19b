//! How often a mount's players were woken, as it was read before a look at the ring, in the order on which the law of `waking` stands.
//! The number is read; the ring is taken from; a player that has taken all tells its cursor, and that it has; then its frame thread
//! sleeps, or its writer notes it as empty. Each call returns what the next one takes.
ghost use Rattle.std.specs.Prelude.{◌≡◌};

use crate::flow::pace::KnownLevel;
use crate::mount::mount_signal::{MountSignal, Stand};
use crate::wake::wake_word::WakeWord;
use relay_accounts::FrameEnd;
use std::marker::Model;
use std::sync::Wait;

/// How often a mount's players were woken, read before its ring is looked at, so that what comes after the look is another wake-up:
/// the step `reads_wakes` of the machine of `waking`. It has no `Drop`, so that the look that it was read for spends it.
///
/// Its model is the number.
pub struct WakeupsRead {
    player_wakeups: u64,
}

impl Model for WakeupsRead {
    ghost use Rattle.std.specs.Prelude.{ℕ};

    ghost Value = { ℕ };

    ghost view = { λ read. read.player_wakeups };
}

/// The ring was found empty, and the pace was told: a publisher that opens a round after this wakes the player. It has no `Drop`, so that it
/// ends in `sleep` or `note`.
///
/// Its model is how often the mount's players were woken before the look.
pub struct LevelTold {
    player_wakeups: u64,
}

impl Model for LevelTold {
    ghost use Rattle.std.specs.Prelude.{ℕ};

    ghost Value = { ℕ };

    ghost view = { λ told. told.player_wakeups };
}

impl WakeupsRead {
    /// Reads how often the players were woken.
    pub(crate) fn read(word: &WakeWord) -> WakeupsRead {
        WakeupsRead {
            player_wakeups: word.load(),
        }
    }

    /// Returns the number that was read.
    pub fn number(&self) -> u64
        ensures { result ≡ self.now }
    {
        self.player_wakeups
    }

    /// Tells the pace of a player that it has taken all.
    pub fn tell_level(
        self,
        rt: &impl Wait,
        signal: &MountSignal,
        seat: usize,
        stand: Stand,
        known: &mut KnownLevel,
    ) -> LevelTold
        ensures same { result ≡ self }
    {
        let WakeupsRead { player_wakeups } = self;
        signal.level(rt, seat, stand, known);
        LevelTold { player_wakeups }
    }

    /// There may be more to take, or the look isn't made: the next look reads it anew.
    pub fn go_on(self) {
        let WakeupsRead { player_wakeups: _ } = self;
    }

    /// The frames end so, and there is no next look.
    pub fn end(self, end: FrameEnd) -> FrameEnd
        ensures { result ≡ end }
    {
        let WakeupsRead { player_wakeups: _ } = self;
        end
    }
}

impl LevelTold {
    /// Sleeps until the players are woken again. It may also return for no reason.
    pub(crate) fn sleep(self, rt: &impl Wait, word: &WakeWord) {
        let LevelTold { player_wakeups } = self;
        word.sleep(rt, player_wakeups, None);
    }

    /// Returns how often the players were woken before the look, for a writer to note.
    pub fn note(self) -> u64
        ensures { result ≡ self }
    {
        let LevelTold { player_wakeups } = self;
        player_wakeups
    }
}
