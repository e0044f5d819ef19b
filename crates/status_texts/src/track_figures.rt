//! The counts of each track that has some.
ghost use Rattle.std.specs.Prelude.{◌≡◌, IfOk};
ghost use Rattle.status_texts.specs.Shown.{track_in, tracks_in};

use sequence_counts::{SequenceCounts, TrackCounts};
use std::alloc::{AllocError, Global};
use transport_header::MOST_TRACKS;

/// The counts of a track of a mount.
#[derive(Clone, Copy, Debug, PartialEq, Eq, Drop)]
pub(crate) struct TrackFigures {
    /// Its number, 0 to 15.
    pub(crate) track: usize,
    pub(crate) counts: SequenceCounts,
}

/// Returns a track's counts with its number. `None` if it has no counts.
fn track_of(tracks: &TrackCounts, track: usize) -> Option<TrackFigures>
    ensures { result ≡ track_in tracks.now track }
{
    let counts = tracks.of_track(track)?;
    Some(TrackFigures { track, counts })
}

/// Returns the counts of each track that has some, in the order of the tracks.
pub(crate) fn tracks_of(
    alloc: Global,
    tracks: &TrackCounts,
) -> Result<Vec<TrackFigures>, AllocError>
    ensures { IfOk result (λ shown. shown.items ≡ tracks_in tracks.now) }
{
    (0..MOST_TRACKS)
        .filter_map(|track| track_of(tracks, track))
        .collect(alloc)
}
