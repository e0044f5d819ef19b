//! The report of the frames that came in.
ghost use Rattle.std.specs.Prelude.{◌≡◌, ◌+◌, ◌^◌, ◌<◌, []};
ghost use Rattle.publisher.specs.Fates.{AreCounted, CountsOne, total};

use crate::fate::Fate;
use rtsp_message::{Fault, Request};

/// Why no more frames came.
#[derive(Drop)]
pub enum InStop {
    /// A message came.
    Message(Request),
    /// The source is at its end.
    End,
    /// The stream can't be read any further.
    Fault(Fault),
    /// The source has failed.
    ReadFailed,
    /// Memory was refused to the reader. No byte is lost.
    OutOfMemory,
}

/// What became of the frames that came in. Each is counted once. A frame takes at least one byte of a
/// source that gives at most 2^63 bytes, so no count overflows.
#[derive(Drop)]
pub struct InReport {
    /// The frames that were published, as one packet each.
    pub published: u64,
    /// Those that the feed refused, because the place for the packet was pinned.
    pub pinned: u64,
    /// Those that are longer than the feed's packets may be.
    pub oversize: u64,
    /// Those that the feed refused, because it has no packet number left.
    pub worn: u64,
    /// Those that the feed had no memory for.
    pub unkept: u64,
    /// Those on an RTP channel that are no RTP packets (RFC 3550, 5.1).
    pub bad_rtp: u64,
    /// Those on a channel of no track that is set up.
    pub strangers: u64,
    pub stop: InStop,
}

impl InReport {
    /// Nothing is counted.
    pub(crate) fn new() -> InReport
        ensures { AreCounted [] result }
    {
        InReport {
            published: 0,
            pinned: 0,
            oversize: 0,
            worn: 0,
            unkept: 0,
            bad_rtp: 0,
            strangers: 0,
            stop: InStop::End,
        }
    }

    /// Counts one more frame.
    pub(crate) fn count(&mut self, fate: Fate)
        requires { total self.old + 1 < 2 ^ 64 }
        ensures { CountsOne self.old fate self.new }
    {
        match fate {
            Fate::Published { .. } => self.published += 1,
            Fate::Pinned => self.pinned += 1,
            Fate::Oversize => self.oversize += 1,
            Fate::Worn => self.worn += 1,
            Fate::Unkept => self.unkept += 1,
            Fate::BadRtp => self.bad_rtp += 1,
            Fate::Stranger => self.strangers += 1,
        }
    }

    /// The same counts, with the reason why no more came.
    pub(crate) fn stopped(self, stop: InStop) -> InReport
        ensures { result ≡ record self { stop = stop } }
    {
        InReport { stop, ..self }
    }
}
