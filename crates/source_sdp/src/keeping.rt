//! Which tracks go on.
ghost use Rattle.std.specs.Prelude.{◌≡◌, ◌↔◌, ◌<◌, false, length, unwrap_or, slice_get, IsTrue};
ghost use Rattle.source_sdp.specs.Kept.{kept_among};

use crate::track::SourceTrack;

/// Whether the track of this place goes on. One without a flag doesn't.
pub(crate) fn is_kept(kept: &[bool], place: usize) -> bool
    ensures { result ≡ unwrap_or (slice_get kept.now place) false }
{
    kept.get(place).copied().unwrap_or(false)
}

/// Whether one of the tracks goes on.
pub(crate) fn keeps_track(tracks: &[SourceTrack], kept: &[bool]) -> bool
    ensures { IsTrue result ↔ (0 < length (kept_among tracks.now kept.now)) }
{
    for place in 0..tracks.len() {
        if is_kept(kept, place) {
            return true;
        }
    }
    false
}
