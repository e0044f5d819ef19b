//! On which channel of the target a frame of the source goes on (RFC 2326, 10.12).
ghost use Rattle.std.specs.Prelude.{◌≡◌, replicate, None};
ghost use Rattle.rtsp_client.specs.FrameMaps.{IsFateOf, IsTargetOf};

use crate::frame_account::FrameFate;
use transport_header::TrackChannels;

/// The channels of each track that is set up, at the source and at the target, by the track's place among those that are set up.
#[derive(Drop)]
pub struct FrameMap {
    pub source: TrackChannels,
    pub target: TrackChannels,
}

impl FrameMap {
    /// No track is set up.
    pub fn new() -> FrameMap
        ensures { result ≡ record { source = replicate 16 None; target = replicate 16 None } }
    {
        FrameMap {
            source: TrackChannels::new(),
            target: TrackChannels::new(),
        }
    }

    /// Returns the channel of the target for frames that come on this channel of the source: RTP goes on as RTP, RTCP as RTCP. `None` if no
    /// track has it.
    pub fn target_of(&self, channel: u8) -> Option<u8>
        ensures { IsTargetOf self.now.source self.now.target channel result }
    {
        let tag = self.source.tag_on(channel)?;
        self.target.channel_of(tag)
    }

    /// Returns what becomes of a frame that comes on this channel, if the target records or doesn't yet, and if the client is over.
    pub fn fate_of(&self, channel: u8, is_recording: bool, is_over: bool) -> FrameFate
        ensures { IsFateOf self.now.source self.now.target channel is_recording is_over result }
    {
        if !is_recording {
            return match self.source.tag_on(channel) {
                Some(_) => FrameFate::BeforeRecording,
                None => FrameFate::UnknownChannel,
            };
        }
        match self.target_of(channel) {
            Some(_) if is_over => FrameFate::Unsent,
            Some(channel) => FrameFate::Waits { channel },
            None => FrameFate::UnknownChannel,
        }
    }
}
