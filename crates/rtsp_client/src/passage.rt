//! The frames that go on from the source to the target.
ghost use Rattle.std.specs.Prelude.{◌≡◌, ◌<◌, ◌↔◌, true, false, IsTrue};
ghost use Rattle.sequence_counts.specs.Header.{HasFixedHeader};
ghost use Rattle.rtsp_client.specs.Accounts.{with_frame, with_sent};
ghost use Rattle.rtsp_client.specs.declared.frame_account.FrameFate.TheVariants.{Unsent};
ghost use Rattle.rtsp_client.specs.FrameMaps.{IsFateOf};
ghost use Rattle.rtsp_client.specs.Passages.{GivesPair, IsCounted, IsRtcpOn, TakesPair, is_dropped, new_passage, with_account};

use crate::asked::Side;
use crate::frame_account::{FrameAccount, FrameFate};
use crate::frame_map::FrameMap;
use crate::limits::MOST_WAITING_FRAMES;
use crate::reply_channels::ChannelFault;
use sequence_counts::TrackCounts;
use transport_header::{ChannelPair, MOST_TRACKS, TrackChannels};

/// The tracks that are set up, and what became of their frames.
#[derive(Drop)]
pub struct Passage {
    pub(crate) map: FrameMap,
    /// Which tracks of the description they are, by their place among those that are set up.
    pub(crate) tracks: [usize; MOST_TRACKS],
    pub(crate) account: FrameAccount,
    pub(crate) counts: TrackCounts,
}

impl Passage {
    /// No track is set up, and no frame came.
    pub(crate) fn new() -> Passage
        ensures { result ≡ new_passage }
    {
        Passage {
            map: FrameMap::new(),
            tracks: [0; MOST_TRACKS],
            account: FrameAccount::new(),
            counts: TrackCounts::new(),
        }
    }

    /// Gives the track that has this place two channels at a side; at the source it is this track of the description. If they are the same,
    /// or another track has one of them, nothing changes.
    pub(crate) fn give(
        &mut self,
        side: Side,
        place: usize,
        track: usize,
        pair: ChannelPair,
    ) -> Result<(), ChannelFault>
        requires { place < 16 }
        ensures { TakesPair side place track pair self.old self.new result }
    {
        match side {
            Side::Source => {
                give(&mut self.map.source, place, pair)?;
                self.tracks[place] = track;
                Ok(())
            }
            Side::Target => give(&mut self.map.target, place, pair),
        }
    }

    /// A frame comes on a channel of the source, while the target records or before, and before the client is over or later.
    pub(crate) fn comes(
        &mut self,
        channel: u8,
        payload: &[u8],
        is_recording: bool,
        is_over: bool,
    ) -> FrameFate
        ensures fate { IsFateOf self.old.map.source self.old.map.target channel is_recording is_over result }
        ensures account { self.new.account ≡ with_frame self.old.account result }
        ensures map { self.new.map ≡ self.old.map }
        ensures tracks { self.new.tracks ≡ self.old.tracks }
        ensures rtcp { IsRtcpOn self.old.map.source channel → self.new.counts ≡ self.old.counts }
        ensures no_packet { (HasFixedHeader payload.now → ⊥) → self.new.counts ≡ self.old.counts }
        ensures dropped { is_dropped result ≡ true → self.new.counts ≡ self.old.counts }
        ensures counted { is_dropped result ≡ false → IsCounted self.old.map.source channel payload.now self.old.counts self.new.counts }
    {
        let fate = self.map.fate_of(channel, is_recording, is_over);
        self.account.comes(fate);
        if let FrameFate::Waits { .. } = fate {
            self.count(channel, payload);
        }
        fate
    }

    /// Counts a packet of a track by its number, if it is RTP.
    fn count(&mut self, channel: u8, payload: &[u8])
        ensures account { self.new.account ≡ self.old.account }
        ensures map { self.new.map ≡ self.old.map }
        ensures tracks { self.new.tracks ≡ self.old.tracks }
        ensures rtcp { IsRtcpOn self.old.map.source channel → self.new.counts ≡ self.old.counts }
        ensures no_packet { (HasFixedHeader payload.now → ⊥) → self.new.counts ≡ self.old.counts }
        ensures counted { IsCounted self.old.map.source channel payload.now self.old.counts self.new.counts }
    {
        let Some(tag) = self.map.source.tag_on(channel) else {
            return;
        };
        if tag % 2 == 0 {
            self.counts.offered(usize::from(tag / 2), payload);
        }
    }

    /// A frame of the source is cut by the end of its stream.
    pub(crate) fn is_cut(&mut self)
        ensures { self.new ≡ with_account self.old (with_frame self.old.account Unsent) }
    {
        self.account.comes(FrameFate::Unsent);
    }

    /// The target's system has taken so many of the frames that wait, at most all.
    pub(crate) fn sends(&mut self, count: u64)
        ensures { self.new ≡ with_account self.old (with_sent self.old.account count) }
    {
        self.account.sends(count);
    }

    /// Returns whether fewer frames wait for the target than may.
    pub(crate) fn has_room(&self) -> bool
        ensures { IsTrue result ↔ (self.now.account.unsent < 4096) }
    {
        self.account.unsent() < MOST_WAITING_FRAMES
    }
}

/// Gives a track two channels. If they are the same, or another track has one of them, nothing changes.
fn give(channels: &mut TrackChannels, place: usize, pair: ChannelPair) -> Result<(), ChannelFault>
    requires { place < 16 }
    ensures { GivesPair place pair channels.old channels.new result }
{
    if !channels.may_have(place, pair) {
        return Err(ChannelFault::OfAnotherTrack);
    }
    channels.set(place, pair);
    Ok(())
}
