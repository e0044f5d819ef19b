//! The channels of a session's tracks (RFC 2326, 10.12 and 12.39).
ghost use Rattle.std.specs.Prelude.{◌≡◌, ◌↔◌, ◌<◌, ℕ, None, Some, IsTrue, length, replicate, slice_set};
ghost use Rattle.std.specs.List.{Contains};
ghost use Rattle.transport_header.specs.Tracks.{pair_at, channel_of, IsTagOn, IsFreeFor, IsOfOther, MayHave};

use crate::channels::Channels;
use crate::spec::ChannelPair;
use std::marker::Model;

/// The most tracks that a session has.
pub const MOST_TRACKS: usize = 16;

// A channel is one byte.
const CHANNELS: usize = 256;

/// The channels of a session's tracks, which are at most 16. A packet's tag is `2 * track`, and 1 more
/// for RTCP. Both ways, from a tag to its channel and from a channel to its tag, take one look.
///
/// A contract sees the pairs of the sixteen tracks, `None` for a track that isn't set up. No channel
/// belongs to two tags.
#[derive(Drop)]
pub struct TrackChannels {
    pairs: [Option<ChannelPair>; MOST_TRACKS],
    tags: [Option<u8>; CHANNELS],
}

impl Model for TrackChannels {
    ghost use Rattle.std.specs.Prelude.{List, Option};
    ghost use Rattle.transport_header.specs.declared.spec.ChannelPair.{ChannelPair};
    ghost use Rattle.transport_header.specs.Tracks.{AreTagsOf};

    ghost Value = { List (Option ChannelPair) };

    ghost view = { λ c. c.pairs };

    ghost invariant = { λ c. AreTagsOf c.pairs c.tags };
}

impl TrackChannels {
    /// No track is set up.
    pub fn new() -> TrackChannels
        ensures { result ≡ replicate 16 None }
    {
        TrackChannels {
            pairs: [None; MOST_TRACKS],
            tags: [None; CHANNELS],
        }
    }

    /// The same channels once more. Takes no memory.
    pub fn copy(&self) -> TrackChannels
        ensures { result ≡ self.now }
    {
        TrackChannels {
            pairs: self.pairs,
            tags: self.tags,
        }
    }

    /// The channels of a track, if it is set up.
    pub fn pair_of(&self, track: usize) -> Option<ChannelPair>
        ensures value { result ≡ pair_at self.now track }
        ensures tracks { length self.now ≡ 16 }
    {
        *self.pairs.get(track)?
    }

    /// The channel of the packets with a tag: RTP on the first of its track's pair, RTCP on the second.
    /// `None` where the track isn't set up.
    pub fn channel_of(&self, tag: u8) -> Option<u8>
        ensures { result ≡ channel_of self.now tag }
    {
        let pair = self.pair_of(usize::from(tag / 2))?;
        Some(if tag % 2 == 0 {
            pair.first
        } else {
            pair.second
        })
    }

    /// The tag of the packets that come on a channel. `None` where no track has it.
    pub fn tag_on(&self, channel: u8) -> Option<u8>
        ensures { IsTagOn self.now channel result }
    {
        self.tags[usize::from(channel)]
    }

    /// Whether a track may have these channels: they differ, and no other track has either.
    pub fn may_have(&self, track: usize, pair: ChannelPair) -> bool
        ensures { IsTrue result ↔ MayHave self.now track pair }
    {
        pair.first != pair.second
            && self.is_free_for(track, pair.first)
            && self.is_free_for(track, pair.second)
    }

    // Whether no other track has a channel.
    fn is_free_for(&self, track: usize, channel: u8) -> bool
        ensures { IsTrue result ↔ IsFreeFor self.now track channel }
    {
        match self.tag_on(channel) {
            Some(tag) => usize::from(tag / 2) == track,
            None => true,
        }
    }

    /// The channels of the tracks other than this one: those that `choose` may not give it.
    pub fn others(&self, track: usize) -> Channels
        ensures { (channel : ℕ) → Contains result channel ↔ IsOfOther self.now track channel }
    {
        let mut others = Channels::new();
        for other in 0..MOST_TRACKS {
            let Some(pair) = self.pair_of(other) else {
                continue;
            };
            if other != track {
                others.insert(pair.first);
                others.insert(pair.second);
            }
        }
        others
    }

    /// Gives a track two channels, in place of those that it had.
    pub fn set(&mut self, track: usize, pair: ChannelPair)
        requires track { track < 16 }
        requires free { MayHave self.old track pair }
        ensures { self.new ≡ slice_set self.old track (Some pair) }
    {
        self.remove(track);
        let tag = 2 * track as u8;
        self.pairs[track] = Some(pair);
        self.tags[usize::from(pair.first)] = Some(tag);
        self.tags[usize::from(pair.second)] = Some(tag + 1);
    }

    /// Takes a track's channels away, if it had any.
    pub fn remove(&mut self, track: usize)
        requires { track < 16 }
        ensures { self.new ≡ slice_set self.old track None }
    {
        if let Some(pair) = self.pair_of(track) {
            self.pairs[track] = None;
            self.tags[usize::from(pair.first)] = None;
            self.tags[usize::from(pair.second)] = None;
        }
    }
}
