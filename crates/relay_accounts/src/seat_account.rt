//! What became of the packets that were published while a player had its seat.
ghost use Rattle.std.specs.Prelude.{◌≡◌, ◌+◌, ◌-◌, ◌^◌, ◌<◌, ◌≤◌};
ghost use Rattle.relay_accounts.specs.Counting.{account_of, lost_by_now, published_in};

use crate::handover::HandedOver;
use cursor::Left;
use std::fmt;

/// What became of the packets that were published while a player had its seat: each is counted once.
#[derive(Clone, Copy, Debug, PartialEq, Eq, Drop)]
pub struct SeatAccount {
    /// The system's socket took them, each as a whole frame.
    pub sent: u64,
    /// They are of tracks that aren't set up.
    pub skipped: u64,
    /// The ring no longer kept them when their turn came, or when the seat was left.
    pub lost: u64,
    /// The ring still kept them when the seat was left, or they were taken from it and not handed to the system.
    pub unsent: u64,
    /// How many bytes the packets in `sent` have.
    pub bytes: u64,
}

impl SeatAccount {
    /// Returns the account of a seat that was left, of a ring that keeps `keep` packets, if its sender handed over `handed`.
    pub fn of(left: &Left, handed: HandedOver, keep: u64) -> SeatAccount
        ensures is { result ≡ account_of left.now handed keep }
        ensures closes { left.now.taken + left.now.lost + left.now.left < 2 ^ 64
            → result.sent + result.skipped + result.lost + result.unsent ≡ left.now.taken + left.now.lost + left.now.left }
        ensures handed { handed.sent + handed.skipped ≤ left.now.taken → (result.sent ≡ handed.sent) × (result.skipped ≡ handed.skipped) }
    {
        let skipped = handed.skipped.min(left.taken);
        let sent = handed.sent.min(left.taken - skipped);
        let held = left.taken - skipped - sent;
        SeatAccount {
            sent,
            skipped,
            lost: left.lost.saturating_add(left.left.saturating_sub(keep)),
            unsent: held.saturating_add(left.left.min(keep)),
            bytes: handed.bytes,
        }
    }

    /// Returns how many packets were published while the player had its seat.
    pub fn published(&self) -> u64
        ensures { result ≡ published_in self.now }
    {
        self.sent
            .saturating_add(self.skipped)
            .saturating_add(self.lost)
            .saturating_add(self.unsent)
    }
}

/// Returns how many packets a player would have lost if it left its seat now. `lost` were reported lost to it, and its
/// cursor is `cursor`; `published` were published to its ring, which keeps `keep`.
pub fn lost_so_far(lost: u64, cursor: u64, published: u64, keep: u64) -> u64
    ensures { result ≡ lost_by_now lost cursor published keep }
{
    let left = Left {
        taken: 0,
        lost,
        left: published.saturating_sub(cursor),
    };
    SeatAccount::of(
        &left,
        HandedOver {
            sent: 0,
            skipped: 0,
            bytes: 0,
        },
        keep,
    )
    .lost
}

impl fmt::Display for SeatAccount {
    fn fmt<W: fmt::Write>(&self, f: &mut fmt::Formatter<W>) -> fmt::Result {
        let SeatAccount {
            sent,
            skipped,
            lost,
            unsent,
            bytes: _,
        } = self;
        write!(
            f,
            "sent {sent}, skipped {skipped}, lost {lost}, unsent {unsent}"
        )
    }
}
