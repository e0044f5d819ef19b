//! The counts of the tracks of a mount.
ghost use Rattle.std.specs.Prelude.{◌≡◌, ◌<◌, replicate, slice_set, None, Some};
ghost use Rattle.sequence_counts.specs.Header.{HasFixedHeader, sequence_number_of, source_of};
ghost use Rattle.sequence_counts.specs.Tracks.{AreEach, CountsPacket, after_record, at, both_of, both_tracks, counts_of, recorded_tracks, since_of, total_of, tracks_since, with_track};

use crate::counts::SequenceCounts;
use crate::header::rtp_numbers;
use std::array;
use std::marker::Model;
use transport_header::MOST_TRACKS;

/// The counts of each track of a mount (0 to 15). A track has none until an RTP packet of it is offered.
#[derive(Clone, Copy, Debug, PartialEq, Eq, Drop)]
pub struct TrackCounts {
    tracks: [Option<SequenceCounts>; MOST_TRACKS],
}

impl Model for TrackCounts {
    ghost use Rattle.sequence_counts.specs.Tracks.{Tracks};

    ghost Value = { Tracks };

    ghost view = { λ t. t.tracks };

    ghost inverse = { λ t. record { tracks = t } };
}

impl TrackCounts {
    /// Returns the counts of a mount to which nothing was offered.
    pub fn new() -> TrackCounts
        ensures { result ≡ replicate 16 None }
    {
        TrackCounts {
            tracks: [None; MOST_TRACKS],
        }
    }

    /// Returns the counts of a track. `None` if no RTP packet of it was offered, and of each number above 15.
    pub fn of_track(&self, track: usize) -> Option<SequenceCounts>
        ensures { result ≡ at self.now track }
    {
        match self.tracks.get(track) {
            Some(counts) => *counts,
            None => None,
        }
    }

    /// Notes that the publisher's RECORD was accepted: the next packet of each track is compared with none before it.
    #[tactic(auto, using(crate::proofs::EachTrack::each_of))]
    pub fn recorded(&mut self)
        ensures { self.new ≡ recorded_tracks self.old }
    {
        let old = *self;
        self.tracks = after_records(&old);
    }

    /// Counts a packet of a track that the publisher offers, if the bytes are an RTP packet (RFC 3550, 5.1).
    pub fn offered(&mut self, track: usize, packet: &[u8])
        ensures counted { HasFixedHeader packet.now → track < 16 → CountsPacket (counts_of (at self.old track)) (counts_of (at self.new track)) (sequence_number_of packet.now) (source_of packet.now) }
        ensures others { self.new ≡ slice_set self.old track (at self.new track) }
        ensures no_packet { (HasFixedHeader packet.now → ⊥) → self.new ≡ self.old }
        ensures no_track { (track < 16 → ⊥) → self.new ≡ self.old }
    {
        let Some((number, ssrc)) = rtp_numbers(packet) else {
            return;
        };
        if track >= MOST_TRACKS {
            return;
        }
        let counts = with_packet(self.tracks[track], number, ssrc);
        self.tracks[track] = Some(counts);
    }

    /// Returns what was counted since earlier counts of the same mount.
    #[tactic(auto, using(crate::proofs::EachTrack::each_of))]
    pub fn since(&self, earlier: &TrackCounts) -> TrackCounts
        ensures { result ≡ tracks_since self.now earlier.now }
    {
        TrackCounts {
            tracks: each_since(self, earlier),
        }
    }

    /// Returns what was counted of two mounts, track by track.
    #[tactic(auto, using(crate::proofs::EachTrack::each_of))]
    pub fn plus(&self, other: &TrackCounts) -> TrackCounts
        ensures { result ≡ both_tracks self.now other.now }
    {
        TrackCounts {
            tracks: each_of_both(self, other),
        }
    }

    /// Returns what was counted of all tracks, with no highest packet.
    pub fn total(&self) -> SequenceCounts
        ensures { result ≡ total_of self.now }
    {
        self.tracks.iter().fold(
            SequenceCounts::new(),
            |total, counts| with_track(total, counts),
        )
    }
}

/// Returns what was counted, with the counts of one track more.
fn with_track(total: SequenceCounts, counts: &Option<SequenceCounts>) -> SequenceCounts
    ensures { result ≡ with_track total counts.now }
{
    match counts {
        Some(counts) => total.plus(counts),
        None => total,
    }
}

/// Returns a track's counts after a RECORD.
fn after_record(counts: Option<SequenceCounts>) -> Option<SequenceCounts>
    ensures { result ≡ after_record counts }
{
    let mut counts = counts?;
    counts.recorded();
    Some(counts)
}

/// Returns a track's counts with one packet more.
#[tactic(auto, unfolding(crate::specs::Tracks::CountsPacket))]
fn with_packet(counts: Option<SequenceCounts>, number: u16, ssrc: u32) -> SequenceCounts
    ensures { CountsPacket (counts_of counts) result number ssrc }
{
    let mut counts = match counts {
        Some(counts) => counts,
        None => SequenceCounts::new(),
    };
    counts.offered(number, ssrc);
    counts
}

/// Returns what was counted of a track since earlier counts of it.
fn since_of(
    counts: Option<SequenceCounts>,
    earlier: Option<SequenceCounts>,
) -> Option<SequenceCounts>
    ensures { result ≡ since_of counts earlier }
{
    match (counts, earlier) {
        (Some(counts), Some(earlier)) => Some(counts.since(&earlier)),
        (counts, _) => counts,
    }
}

/// Returns what was counted of two tracks.
fn both_of(one: Option<SequenceCounts>, other: Option<SequenceCounts>) -> Option<SequenceCounts>
    ensures { result ≡ both_of one other }
{
    match (one, other) {
        (Some(one), Some(other)) => Some(one.plus(&other)),
        (Some(one), None) => Some(one),
        (None, other) => other,
    }
}

/// Returns each track's counts after a RECORD.
fn after_records(counts: &TrackCounts) -> [Option<SequenceCounts>; MOST_TRACKS]
    ensures { AreEach result (λ track. after_record (at counts.now track)) }
{
    array::from_fn(|track| after_record(counts.of_track(track)))
}

/// Returns what was counted of each track since earlier counts.
fn each_since(counts: &TrackCounts, earlier: &TrackCounts) -> [Option<SequenceCounts>; MOST_TRACKS]
    ensures { AreEach result (λ track. since_of (at counts.now track) (at earlier.now track)) }
{
    array::from_fn(|track| since_of(counts.of_track(track), earlier.of_track(track)))
}

/// Returns what was counted of each track of two mounts.
fn each_of_both(one: &TrackCounts, other: &TrackCounts) -> [Option<SequenceCounts>; MOST_TRACKS]
    ensures { AreEach result (λ track. both_of (at one.now track) (at other.now track)) }
{
    array::from_fn(|track| both_of(one.of_track(track), other.of_track(track)))
}
