//! The channels of a connection that are in use (RFC 2326, 10.12).
ghost use Rattle.std.specs.Prelude.{◌≡◌, ◌≤◌, ◌<◌, ◌↔◌, ◌++◌, ◌==◌, ℕ, List, [], ◌∷◌, IsTrue, MatchBool, ◌⊎◌, ◌+◌, length, take};
ghost use Rattle.std.specs.List.{Contains};
ghost use Rattle.transport_header.specs.Chosen.{AreUnused, IsLeastFree};

use crate::spec::ChannelPair;
use std::marker::Model;

// The most channels that `Channels` holds: a pair for each of 16 tracks.
const MOST_CHANNELS: usize = 32;

/// The channels that other tracks of a session use, at most 32 of them, so that two channels side by
/// side are always free. A contract sees the list of the channels, in the order they were put in.
#[derive(Drop)]
pub struct Channels {
    numbers: [u8; MOST_CHANNELS],
    count: usize,
}

impl Model for Channels {
    ghost Value = { List ℕ };

    ghost view = { λ c. take c.count c.numbers };

    ghost invariant = { λ c. c.count ≤ 32 };
}

impl Channels {
    /// No channel.
    pub fn new() -> Self
        ensures { result ≡ [] }
    {
        Channels {
            numbers: [0; MOST_CHANNELS],
            count: 0,
        }
    }

    /// How many channels there are, 0 to 32.
    pub fn len(&self) -> usize
        ensures count { result ≡ length self.now }
        ensures most { result ≤ 32 }
    {
        self.count
    }

    /// Whether there are 32 channels, the most.
    pub fn is_full(&self) -> bool
        ensures full { result ≡ (length self.now == 32) }
        ensures most { length self.now ≤ 32 }
    {
        self.count == MOST_CHANNELS
    }

    /// Whether a channel is among these.
    pub fn contains(&self, channel: u8) -> bool
        ensures { IsTrue result ↔ Contains self.now channel }
    {
        self.numbers[..self.count].contains(&channel)
    }

    /// Puts a channel in, after the others.
    pub fn insert(&mut self, channel: u8)
        requires { length self.old < 32 }
        ensures { self.new ≡ self.old ++ channel ∷ [] }
    {
        self.numbers[self.count] = channel;
        self.count += 1;
    }

    // Whether a channel is unused as the next one.
    fn is_free_at(&self, channel: u8) -> bool
        requires { channel < 255 }
        ensures { MatchBool result (AreUnused self.now channel (channel + 1)) (Contains self.now channel ⊎ Contains self.now (channel + 1)) }
    {
        !self.contains(channel) && !self.contains(channel + 1)
    }

    /// The least even channel that is unused as the next one, and that next one.
    pub fn least_free_pair(&self) -> ChannelPair
        ensures { IsLeastFree self.now result.first result.second }
    {
        // Each channel takes at most one pair away.
        let pairs = self.len() + 1;
        for half in 0..pairs {
            let first = (2 * half) as u8;
            if self.is_free_at(first) {
                return ChannelPair {
                    first,
                    second: first + 1,
                };
            }
        }
        unreachable!()
    }
}
