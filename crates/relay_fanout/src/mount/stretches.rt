//! When a publisher looks at its players, and when it waits for them.
ghost use Rattle.std.specs.Prelude.{◌≡◌, ◌-◌, ◌<◌, ◌≤◌, ◌↔◌, ◌*◌, ◌/◌, IsTrue, nat_le, if◌then◌else◌};
ghost use Rattle.relay_fanout.specs.Stretches.{next_for, stretches_of};

use crate::limits::LEAST_WAIT;
use mount_signals::TAKES;

/// When a publisher looks at how far its players are, and how far behind they may be.
#[derive(Clone, Copy, Debug, PartialEq, Eq, Drop)]
pub(super) struct Stretches {
    /// After how many packets the players' positions are read.
    pub(super) stretch: u64,
    /// How many packets behind the slowest player that keeps up may be before it is waited for. The wait ends when it is half
    /// that many behind.
    pub(super) most: u64,
    /// How many packets were published when the positions were last read.
    pub(super) looked: u64,
}

/// What a publisher does for its players after a packet.
#[derive(Clone, Copy, Debug, PartialEq, Eq, Drop)]
pub(super) enum ForPlayers {
    /// They are woken as ever.
    Nothing,
    /// They are woken at once.
    Wake,
    /// They are woken at once, and waited for until they have taken `target` packets.
    GiveWay { target: u64 },
}

impl Stretches {
    /// For a ring that keeps `keep` packets.
    pub(super) fn new(keep: u64) -> Stretches
        ensures { result ≡ stretches_of keep }
    {
        let stretch = (keep / 4).max(TAKES);
        Stretches {
            stretch,
            most: keep.saturating_sub(stretch).max(TAKES),
            looked: 0,
        }
    }

    /// Returns whether the positions are to be read once so many packets are published: a stretch after they were read last.
    pub(super) fn is_due(&mut self, published: u64) -> bool
        ensures due { IsTrue result ↔ (self.old.stretch ≤ published - self.old.looked) }
        ensures new { self.new ≡ record self.old { looked = if nat_le self.old.stretch (published - self.old.looked) then published else self.old.looked } }
    {
        let is_due = published.saturating_sub(self.looked) >= self.stretch;
        if is_due {
            self.looked = published;
        }
        is_due
    }

    /// Returns what to do if the slowest of the players that keep up has taken so many of the packets that are published.
    pub(super) fn next(&self, published: u64, slowest: u64) -> ForPlayers
        ensures { result ≡ next_for self.now (published - slowest) published }
    {
        let behind = published.saturating_sub(slowest);
        if behind < self.stretch {
            ForPlayers::Nothing
        } else if behind < self.most {
            ForPlayers::Wake
        } else {
            ForPlayers::GiveWay {
                target: published.saturating_sub(self.most / 2),
            }
        }
    }
}

/// Returns whether a publisher waits for its players where it may wait for this time, in microseconds: half of it is to be at least
/// what a player that keeps up may need to take all.
pub(super) fn is_worth_a_wait(time: u64) -> bool
    ensures { IsTrue result ↔ (2000 ≤ time) }
{
    time / 2 >= LEAST_WAIT
}
