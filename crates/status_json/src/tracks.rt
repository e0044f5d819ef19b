//! The tracks of a mount as objects of JSON.
ghost use Rattle.std.specs.Prelude.{◌≡◌, IfOk};
ghost use Rattle.status_json.specs.Tracks.{track_in, tracks_in};

use crate::key::{Key, TrackKey};
use crate::lists::Written;
use crate::values::{write_number, write_text};
use sequence_counts::{SequenceCounts, TrackCounts};
use status::TrackStatus;
use std::alloc::{AllocError, Global};
use transport_header::MOST_TRACKS;

/// The counts of a track of a mount.
#[derive(Clone, Copy, Debug, PartialEq, Eq, Drop)]
pub(crate) struct CountedTrack {
    /// Its number, 0 to 15.
    track: usize,
    counts: SequenceCounts,
}

impl Written for CountedTrack {
    ghost use Rattle.status_json.specs.Tracks.{counted_track_text};

    ghost text = { counted_track_text };

    #[tactic(auto, unfolding(crate::specs::Tracks::counted_track_text))]
    fn write(&self, out: &mut Vec<u8>) -> Result<(), AllocError> {
        write_number(out, Key::OfTrack(TrackKey::Track), self.track as u64)?;
        write_number(out, Key::OfTrack(TrackKey::Missing), self.counts.missing())?;
        write_number(out, Key::OfTrack(TrackKey::Late), self.counts.late())?;
        write_number(
            out,
            Key::OfTrack(TrackKey::Restarts),
            self.counts.restarts(),
        )?;
        out.extend_from_slice(b"}")
    }
}

impl Written for TrackStatus {
    ghost use Rattle.status_json.specs.Tracks.{described_text};

    ghost text = { described_text };

    #[tactic(auto, unfolding(crate::specs::Tracks::described_text))]
    fn write(&self, out: &mut Vec<u8>) -> Result<(), AllocError> {
        write_text(out, Key::OfTrack(TrackKey::Media), self.media.as_slice())?;
        write_text(out, Key::OfTrack(TrackKey::Format), self.format.as_slice())?;
        out.extend_from_slice(b"}")
    }
}

/// Returns a track's counts with its number. `None` if it has no counts.
fn counted_track(tracks: &TrackCounts, track: usize) -> Option<CountedTrack>
    ensures { result ≡ track_in tracks.now track }
{
    let counts = tracks.of_track(track)?;
    Some(CountedTrack { track, counts })
}

/// Returns the counts of each track that has some, in the order of the tracks.
pub(crate) fn counted_tracks(
    alloc: Global,
    tracks: &TrackCounts,
) -> Result<Vec<CountedTrack>, AllocError>
    ensures { IfOk result (λ rows. rows.items ≡ tracks_in tracks.now) }
{
    (0..MOST_TRACKS)
        .filter_map(|track| counted_track(tracks, track))
        .collect(alloc)
}
