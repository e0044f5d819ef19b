//! What is told of packets that went out.
ghost use Rattle.std.specs.Prelude.{◌≡◌};

/// Why no more packets went out.
#[derive(Clone, Copy, Debug, PartialEq, Eq, Drop)]
pub enum OutStop {
    /// As many takes were made as were asked for, and there may be more to take.
    Done,
    /// The tap has no further packet yet.
    Empty,
    /// The tap has no further packet, and none will come.
    Ended,
    /// The sink has failed.
    WriteFailed,
}

/// What went out of a tap. Each count is at most the number of takes, or, for `lost`, the number of
/// packets that the tap's account says were lost, so none of them can be too large for its type.
#[derive(Clone, Copy, Debug, PartialEq, Eq, Drop)]
pub struct OutReport {
    /// The packets that went out whole, as one frame each.
    pub sent: u64,
    /// The packets of tracks that aren't set up. Nothing of them went out.
    pub skipped: u64,
    /// The packets that the tap no longer had when their turn came.
    pub lost: u64,
    /// After `WriteFailed`, how many bytes of the frame after those sent went out, fewer than it has;
    /// else 0.
    pub cut: usize,
    pub stop: OutStop,
}

/// The report of so many packets, where what was lost isn't counted yet.
pub(crate) fn report_of(sent: u64, skipped: u64, cut: usize, stop: OutStop) -> OutReport
    ensures { result ≡ record { sent = sent; skipped = skipped; lost = 0; cut = cut; stop = stop } }
{
    OutReport {
        sent,
        skipped,
        lost: 0,
        cut,
        stop,
    }
}
