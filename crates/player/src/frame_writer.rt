//! A visitor of packets that writes their frames.
ghost use Rattle.std.specs.Prelude.{◌≡◌};

use crate::framing::write_frame;
use cursor::Visit;
use interleaved::{Sink, WriteCut};
use transport_header::TrackChannels;

/// What went out of one packet.
#[derive(Clone, Copy, Drop)]
pub(crate) enum Outgone {
    /// Its whole frame.
    Whole,
    /// Nothing, since its track isn't set up.
    Nothing,
    /// So many bytes of its frame, fewer than it has.
    Front(usize),
}

/// Writes each packet that it is shown as a frame, where its track is set up, and keeps what went out of the last one.
#[derive(Drop)]
pub(crate) struct FrameWriter<'a, W> {
    pub(crate) writer: &'a mut W,
    pub(crate) channels: &'a TrackChannels,
    pub(crate) outgone: Outgone,
}

impl<W: Sink> Visit for FrameWriter<'_, W> {
    ghost use Rattle.player.specs.Shown.{WritesFrame};

    ghost packet_bytes = { λ _. 65_535 };

    ghost see_gives = { λ old packet new. (new.writer.ghost_name ≡ old.writer.ghost_name) × (new.channels ≡ old.channels)
        × WritesFrame old.channels.now packet new.outgone (W.written old.writer.now) (W.written new.writer.now) (W.failed old.writer.now) (W.failed new.writer.now) };

    fn see(&mut self, tag: u8, bytes: &[u8]) {
        self.outgone = match self.channels.channel_of(tag) {
            Some(channel) => match write_frame(self.writer, channel, bytes) {
                Ok(()) => Outgone::Whole,
                Err(WriteCut { written }) => Outgone::Front(written),
            },
            None => Outgone::Nothing,
        };
    }
}
