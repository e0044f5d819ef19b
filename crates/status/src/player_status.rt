//! The figures of a player.
ghost use Rattle.std.specs.Prelude.{◌≡◌, ◌+◌, ◌-◌, ◌<◌, ◌≤◌, ◌↔◌, IsTrue};
ghost use Rattle.status.specs.Names.{account_so_far, plays_from, waiting_for};

use base_syntax::Bytes;
use relay_accounts::SeatAccount;
use std::fmt;
use std::net::SocketAddr;

/// A player that has a seat, and its figures there, in packets.
#[derive(Drop)]
pub struct PlayerStatus {
    pub peer: SocketAddr,
    /// The name of its mount.
    pub mount: Bytes,
    pub seat: usize,
    /// How many its socket took.
    pub sent: u64,
    /// How many bytes the packets have that its socket took.
    pub bytes: u64,
    /// How many are of tracks that it didn't set up.
    pub skipped: u64,
    /// How many it has lost at least.
    pub lost: u64,
    /// How many were published and aren't taken for it yet.
    pub behind: u64,
    /// How many were published since it took its seat.
    pub published: u64,
    /// How many milliseconds ago it took its seat.
    pub age: u64,
    /// Whether it has left its seat since its last line.
    pub has_left: bool,
    /// What it was sent and lost since the last line that reported it.
    pub since: PlayerTold,
}

/// What was reported of a player, in packets.
#[derive(Clone, Copy, Debug, PartialEq, Eq, Drop)]
pub struct PlayerTold {
    pub sent: u64,
    pub lost: u64,
}

/// The line that reports what a player was sent and lost since its last line.
#[derive(Drop)]
pub struct PlayerLine<'a> {
    pub status: &'a PlayerStatus,
}

impl PlayerTold {
    /// Nothing was reported.
    pub fn nothing() -> PlayerTold
        ensures { result ≡ record { sent = 0; lost = 0 } }
    {
        PlayerTold { sent: 0, lost: 0 }
    }

    /// Returns what was sent and lost since an earlier report.
    pub fn since(self, earlier: PlayerTold) -> PlayerTold
        ensures { result ≡ record { sent = self.sent - earlier.sent; lost = self.lost - earlier.lost } }
    {
        PlayerTold {
            sent: self.sent.saturating_sub(earlier.sent),
            lost: self.lost.saturating_sub(earlier.lost),
        }
    }
}

impl PlayerStatus {
    /// Returns what is reported of it now.
    pub fn told(&self) -> PlayerTold
        ensures { result ≡ record { sent = self.now.sent; lost = self.now.lost } }
    {
        PlayerTold {
            sent: self.sent,
            lost: self.lost,
        }
    }

    /// Returns whether it has a seat of a mount of this name.
    pub fn plays_from(&self, name: &[u8]) -> bool
        ensures { result ≡ plays_from name.now self.now }
    {
        !self.has_left && self.mount.as_slice() == name
    }

    /// Returns what has become of its packets so far. What isn't taken for it yet is in no count.
    pub fn account(&self) -> SeatAccount
        ensures { result ≡ account_so_far self.now }
    {
        SeatAccount {
            sent: self.sent,
            skipped: self.skipped,
            lost: self.lost,
            unsent: 0,
            bytes: self.bytes,
        }
    }

    /// Returns how many of the packets that were published since it took its seat wait for it: they were neither sent, skipped nor
    /// lost.
    pub fn waiting(&self) -> u64
        ensures is { result ≡ waiting_for self.now }
        ensures closes { self.now.sent + self.now.skipped + self.now.lost ≤ self.now.published
            → self.now.sent + self.now.skipped + self.now.lost + result ≡ self.now.published }
        ensures none { self.now.published ≤ self.now.sent + self.now.skipped + self.now.lost → result ≡ 0 }
    {
        self.published
            .saturating_sub(self.sent)
            .saturating_sub(self.skipped)
            .saturating_sub(self.lost)
    }

    /// Returns whether it has lost packets since the last line that reported it.
    pub fn has_lost(&self) -> bool
        ensures { IsTrue result ↔ (0 < self.now.since.lost) }
    {
        self.since.lost > 0
    }
}

impl fmt::Display for PlayerLine<'_> {
    fn fmt<W: fmt::Write>(&self, f: &mut fmt::Formatter<W>) -> fmt::Result {
        write!(
            f,
            "{}: seat {} of {}: sent {}, lost {}, in all {}, behind {}",
            self.status.peer,
            self.status.seat,
            self.status.mount.as_slice().escape_ascii(),
            self.status.since.sent,
            self.status.since.lost,
            self.status.lost,
            self.status.behind
        )
    }
}
