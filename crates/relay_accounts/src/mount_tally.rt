//! What became of the frames of a mount's publisher.
ghost use Rattle.std.specs.Prelude.{◌≡◌, ◌↔◌, IsTrue};
ghost use Rattle.relay_accounts.specs.Reporting.{came_to_mount, nothing_published, published_since, with_fate};

use publisher::Fate;
use sequence_counts::TrackCounts;
use std::fmt;

/// What became of the frames that came to a mount while its publisher recorded. A count that would exceed 2^64 - 1 stays at
/// 2^64 - 1.
#[derive(Clone, Copy, Debug, PartialEq, Eq, Drop)]
pub struct MountTally {
    /// How many packets were published.
    pub packets: u64,
    /// How many bytes these have.
    pub bytes: u64,
    /// Frames that were refused, because a player was just copying the packet that they would have replaced.
    pub pinned: u64,
    /// Frames that are longer than a packet may be.
    pub oversize: u64,
    /// Frames on an RTP channel that are no RTP packets (RFC 3550, 5.1).
    pub bad_rtp: u64,
    /// Frames on a channel of no track that is set up.
    pub unknown_channel: u64,
    /// Frames that the mount had no number or no memory for.
    pub unkept: u64,
    /// For how many milliseconds packets waited for players.
    pub slowed: u64,
    /// By track: the packets that were missing when they came, by their sequence numbers, those that were late, and how often the
    /// numbering began anew.
    pub tracks: TrackCounts,
}

impl MountTally {
    /// None came.
    pub fn new() -> MountTally
        ensures { result ≡ nothing_published }
    {
        MountTally {
            packets: 0,
            bytes: 0,
            pinned: 0,
            oversize: 0,
            bad_rtp: 0,
            unknown_channel: 0,
            unkept: 0,
            slowed: 0,
            tracks: TrackCounts::new(),
        }
    }

    /// Counts a frame with `bytes` bytes of data that met this fate.
    pub fn add(&mut self, fate: Fate, bytes: u64)
        ensures { self.new ≡ with_fate self.old fate bytes }
    {
        match fate {
            Fate::Published { .. } => {
                self.packets = self.packets.saturating_add(1);
                self.bytes = self.bytes.saturating_add(bytes);
            }
            Fate::Pinned => self.pinned = self.pinned.saturating_add(1),
            Fate::Oversize => self.oversize = self.oversize.saturating_add(1),
            Fate::BadRtp => self.bad_rtp = self.bad_rtp.saturating_add(1),
            Fate::Stranger => self.unknown_channel = self.unknown_channel.saturating_add(1),
            Fate::Worn | Fate::Unkept => self.unkept = self.unkept.saturating_add(1),
        }
    }

    /// Returns what came since an earlier tally of the same mount.
    pub fn since(&self, earlier: &MountTally) -> MountTally
        ensures { result ≡ published_since self.now earlier.now }
    {
        MountTally {
            packets: self.packets.saturating_sub(earlier.packets),
            bytes: self.bytes.saturating_sub(earlier.bytes),
            pinned: self.pinned.saturating_sub(earlier.pinned),
            oversize: self.oversize.saturating_sub(earlier.oversize),
            bad_rtp: self.bad_rtp.saturating_sub(earlier.bad_rtp),
            unknown_channel: self.unknown_channel.saturating_sub(earlier.unknown_channel),
            unkept: self.unkept.saturating_sub(earlier.unkept),
            slowed: self.slowed.saturating_sub(earlier.slowed),
            tracks: self.tracks.since(&earlier.tracks),
        }
    }

    /// Returns whether no frame came.
    pub fn is_nothing(&self) -> bool
        ensures { IsTrue result ↔ (came_to_mount self.now ≡ 0) }
    {
        self.packets == 0
            && self.pinned == 0
            && self.oversize == 0
            && self.bad_rtp == 0
            && self.unknown_channel == 0
            && self.unkept == 0
    }
}

impl fmt::Display for MountTally {
    fn fmt<W: fmt::Write>(&self, f: &mut fmt::Formatter<W>) -> fmt::Result {
        write!(
            f,
            "packets {}, bytes {}, pinned {}, too long {}, bad RTP {}, unknown channel {}, no memory {}",
            self.packets,
            self.bytes,
            self.pinned,
            self.oversize,
            self.bad_rtp,
            self.unknown_channel,
            self.unkept
        )?;
        if self.slowed > 0 {
            write!(f, ", slowed {} ms", self.slowed)?;
        }
        match self.tracks.total().missing() {
            0 => Ok(()),
            missing => write!(f, ", missing {missing}"),
        }
    }
}
