//! What is reported of a pass.
ghost use Rattle.std.specs.Prelude.{◌≡◌, ◌+◌, ◌^◌, ◌<◌, []};
ghost use Rattle.publisher.specs.Fates.{AreCounted, CountsOne, total};

use player::{OutReport, OutStop};
use publisher::Fate;
use rtsp_message::Fault;

/// Why a stream brings no more frames.
#[derive(Clone, Copy, Debug, PartialEq, Eq)]
pub enum StreamEnd {
    /// The source is at its end.
    End,
    /// The stream can't be read any further.
    Fault(Fault),
    /// The source has failed.
    ReadFailed,
    /// Memory was refused to the reader. No byte is lost.
    OutOfMemory,
}

/// Why a pass has stopped.
#[derive(Clone, Copy, Debug, PartialEq, Eq)]
pub enum PassStop {
    /// The stream brings no more frames, and the seat has taken all that it can take.
    Stream(StreamEnd),
    /// The sink has failed. Nothing more was read.
    WriteFailed,
}

/// How many frames came, by their fates. Each is counted once. A frame takes at least one byte of a source that
/// gives at most 2^63 bytes, so no count overflows.
#[derive(Clone, Copy, Debug, PartialEq, Eq)]
pub struct FrameCounts {
    /// The frames that were published, as one packet each.
    pub published: u64,
    /// Those that the ring refused because their place was pinned: always 0.
    pub pinned: u64,
    /// Those that are longer than the ring's packets may be.
    pub oversize: u64,
    /// Those that the ring refused because it has no packet number left.
    pub worn: u64,
    /// Those that there was no memory for: always 0, since a ring takes none.
    pub unkept: u64,
    /// Those on an RTP channel that are no RTP packets (RFC 3550, 5.1).
    pub bad_rtp: u64,
    /// Those on a channel of no track that is set up.
    pub strangers: u64,
}

/// How many packets the seat took, by what went out of them. Together they are at most the seat's cursor, so no
/// count overflows.
#[derive(Clone, Copy, Debug, PartialEq, Eq)]
pub struct TakeCounts {
    /// The packets that were written whole, as one frame each.
    pub sent: u64,
    /// The packets of tracks that aren't set up for the player. Nothing of them was written.
    pub skipped: u64,
    /// The packets that the ring no longer kept when their turn came.
    pub lost: u64,
    /// After a failed write, how many bytes of the frame after those sent were written, fewer than it has; else 0.
    pub cut: usize,
}

/// The report of a pass.
#[derive(Clone, Copy, Debug, PartialEq, Eq)]
pub struct PassReport {
    pub came: FrameCounts,
    pub went: TakeCounts,
    pub stop: PassStop,
}

impl FrameCounts {
    ghost use Rattle.relay_pass.specs.Counts.{counts_of};

    /// Nothing is counted.
    pub(crate) fn new() -> FrameCounts
        ensures { AreCounted [] (counts_of result) }
    {
        FrameCounts {
            published: 0,
            pinned: 0,
            oversize: 0,
            worn: 0,
            unkept: 0,
            bad_rtp: 0,
            strangers: 0,
        }
    }

    /// Counts one more frame.
    pub(crate) fn count(&mut self, fate: Fate)
        requires { total (counts_of self.old) + 1 < 2 ^ 64 }
        ensures { CountsOne (counts_of self.old) fate (counts_of self.new) }
    {
        match fate {
            Fate::Published { .. } => self.published += 1,
            Fate::Pinned => self.pinned += 1,
            Fate::Oversize => self.oversize += 1,
            Fate::Worn => self.worn += 1,
            Fate::Unkept => self.unkept += 1,
            Fate::BadRtp => self.bad_rtp += 1,
            Fate::Stranger => self.strangers += 1,
        }
    }
}

impl TakeCounts {
    ghost use Rattle.relay_pass.specs.Counts.{counted_takes, with_report};

    /// Nothing is counted.
    pub(crate) fn new() -> TakeCounts
        ensures { result ≡ record { sent = 0; skipped = 0; lost = 0; cut = 0 } }
    {
        TakeCounts {
            sent: 0,
            skipped: 0,
            lost: 0,
            cut: 0,
        }
    }

    /// Adds what some more takes gave.
    pub(crate) fn add(&mut self, out: &OutReport)
        requires { counted_takes self.old + (out.now.sent + out.now.skipped + out.now.lost) < 2 ^ 64 }
        ensures { self.new ≡ with_report self.old out.now }
    {
        self.sent += out.sent;
        self.skipped += out.skipped;
        self.lost += out.lost;
        self.cut = out.cut;
    }
}

impl PassStop {
    ghost use Rattle.relay_pass.specs.Counts.{stop_of};

    /// Why a pass has stopped whose stream ended so, and whose last takes stopped so.
    pub(crate) fn new(end: StreamEnd, stop: OutStop) -> PassStop
        ensures { result ≡ stop_of end stop }
    {
        match stop {
            OutStop::WriteFailed => PassStop::WriteFailed,
            OutStop::Done | OutStop::Empty | OutStop::Ended => PassStop::Stream(end),
        }
    }
}
