//! Figures of a player that don't fall from one snapshot to the next.
ghost use Rattle.std.specs.Prelude.{◌≡◌};
ghost use Rattle.relay_log.specs.Shown.{IsShownFrom, largest_of, nothing_shown};

use mount_signals::PlayerFigures;

/// What a snapshot had of a player: packets that it was sent, that it skipped and that it has lost, the bytes that it was sent, and how
/// many packets were published since it took its seat.
#[derive(Clone, Copy, Drop)]
pub(super) struct Shown {
    pub(super) sent: u64,
    pub(super) skipped: u64,
    pub(super) lost: u64,
    pub(super) bytes: u64,
    pub(super) published: u64,
}

impl Shown {
    /// No snapshot had it.
    pub(super) fn nothing() -> Shown
        ensures { result ≡ nothing_shown }
    {
        Shown {
            sent: 0,
            skipped: 0,
            lost: 0,
            bytes: 0,
            published: 0,
        }
    }

    /// Returns each figure, or that of these if it is larger.
    pub(super) fn or_larger(self, figures: PlayerFigures) -> Shown
        ensures largest { result ≡ largest_of self figures }
        ensures grows { IsShownFrom self result }
    {
        Shown {
            sent: self.sent.max(figures.sent),
            skipped: self.skipped.max(figures.skipped),
            lost: self.lost.max(figures.lost),
            bytes: self.bytes.max(figures.bytes),
            published: self.published.max(figures.published),
        }
    }
}
