//! Sums of what became of packets.
ghost use Rattle.std.specs.Prelude.{◌≡◌};
ghost use Rattle.mount_series.specs.Sums.{IsAccountFrom, IsTallyFrom, both_accounts, both_tallies, nothing, with_mount, with_player};

use relay_accounts::{MountTally, SeatAccount};

/// What came to mounts, and what became of the packets of their players. A count that would exceed 2^64 - 1
/// stays at 2^64 - 1.
#[derive(Clone, Copy, Debug, PartialEq, Eq, Drop)]
pub struct MountSums {
    pub came: MountTally,
    pub players: SeatAccount,
}

impl MountSums {
    /// Nothing came, and nobody was sent anything.
    pub fn nothing() -> MountSums
        ensures { result ≡ nothing }
    {
        MountSums {
            came: MountTally::new(),
            players: SeatAccount {
                sent: 0,
                skipped: 0,
                lost: 0,
                unsent: 0,
                bytes: 0,
            },
        }
    }

    /// Returns these sums and what came to one more mount.
    pub fn with_mount(self, came: &MountTally) -> MountSums
        ensures added { result ≡ with_mount self came.now }
        ensures grows { IsTallyFrom self.came result.came }
    {
        MountSums {
            came: both_tallies(self.came, *came),
            players: self.players,
        }
    }

    /// Returns these sums and the account of one more player.
    pub fn with_player(self, account: SeatAccount) -> MountSums
        ensures added { result ≡ with_player self account }
        ensures grows { IsAccountFrom self.players result.players }
    {
        MountSums {
            came: self.came,
            players: both_accounts(self.players, account),
        }
    }
}

/// Returns what came to two mounts.
fn both_tallies(a: MountTally, b: MountTally) -> MountTally
    ensures both { result ≡ both_tallies a b }
    ensures grows { IsTallyFrom a result }
{
    MountTally {
        packets: a.packets.saturating_add(b.packets),
        bytes: a.bytes.saturating_add(b.bytes),
        pinned: a.pinned.saturating_add(b.pinned),
        oversize: a.oversize.saturating_add(b.oversize),
        bad_rtp: a.bad_rtp.saturating_add(b.bad_rtp),
        unknown_channel: a.unknown_channel.saturating_add(b.unknown_channel),
        unkept: a.unkept.saturating_add(b.unkept),
        slowed: a.slowed.saturating_add(b.slowed),
        tracks: a.tracks.plus(&b.tracks),
    }
}

/// Returns what became of the packets of two players.
fn both_accounts(a: SeatAccount, b: SeatAccount) -> SeatAccount
    ensures both { result ≡ both_accounts a b }
    ensures grows { IsAccountFrom a result }
{
    SeatAccount {
        sent: a.sent.saturating_add(b.sent),
        skipped: a.skipped.saturating_add(b.skipped),
        lost: a.lost.saturating_add(b.lost),
        unsent: a.unsent.saturating_add(b.unsent),
        bytes: a.bytes.saturating_add(b.bytes),
    }
}
