//! The tracks of descriptions as they are shown.
ghost use Rattle.std.specs.Prelude.{◌≡◌, IfOk, map, take};
ghost use Rattle.relay_log.specs.ShownTracks.{ShowsTracks, first_of, shown_track};

use crate::limits::SHOWN_BYTES;
use base_syntax::Bytes;
use sdp::{SdpFault, Track, read};
use status::TrackStatus;
use std::alloc::{AllocError, Global};

/// Returns the tracks of a description as they are shown: none if it can't be read. The only error is out of memory.
pub(crate) fn tracks_of(alloc: Global, text: &[u8]) -> Result<Vec<TrackStatus>, AllocError>
    ensures { IfOk result (λ tracks. ShowsTracks text.now tracks.items) }
{
    match read(alloc, text) {
        Ok(description) => shown_tracks(alloc, description.tracks()),
        Err(SdpFault::OutOfMemory) => Err(AllocError),
        Err(_) => Ok(Vec::new(alloc)),
    }
}

/// Returns these tracks as they are shown.
fn shown_tracks(alloc: Global, tracks: &[Track]) -> Result<Vec<TrackStatus>, AllocError>
    ensures { IfOk result (λ shown. shown.items ≡ map shown_track tracks.now) }
{
    let mut shown = Vec::new(alloc);
    for track in tracks {
        shown.push(shown_track(alloc, track)?)?;
    }
    Ok(shown)
}

/// Returns a track as it is shown.
fn shown_track(alloc: Global, track: &Track) -> Result<TrackStatus, AllocError>
    ensures { IfOk result (λ shown. shown ≡ shown_track track.now) }
{
    Ok(TrackStatus {
        media: Bytes::from_slice(alloc, shown_part(track.media.as_slice()))?,
        format: Bytes::from_slice(alloc, shown_part(first_format(track)))?,
    })
}

/// Returns the first payload format of a track.
fn first_format(track: &Track) -> &[u8]
    ensures { result.now ≡ first_of track.now.formats }
{
    match track.formats.as_slice().first() {
        Some(format) => format.as_slice(),
        None => b"",
    }
}

/// Returns the part of a text that is shown.
fn shown_part(text: &[u8]) -> &[u8]
    ensures { result.now ≡ take 64 text.now }
{
    if text.len() <= SHOWN_BYTES {
        text
    } else {
        &text[..SHOWN_BYTES]
    }
}

/// Returns a copy of these tracks. The only error is out of memory.
pub(super) fn copies_of_tracks(
    alloc: Global,
    tracks: &[TrackStatus],
) -> Result<Vec<TrackStatus>, AllocError>
    ensures { IfOk result (λ copies. copies.items ≡ tracks.now) }
{
    let mut copies = Vec::new(alloc);
    for track in tracks {
        copies.push(copy_of(alloc, track)?)?;
    }
    Ok(copies)
}

/// Returns a copy of a track.
fn copy_of(alloc: Global, track: &TrackStatus) -> Result<TrackStatus, AllocError>
    ensures { IfOk result (λ copied. copied ≡ track.now) }
{
    Ok(TrackStatus {
        media: Bytes::from_slice(alloc, track.media.as_slice())?,
        format: Bytes::from_slice(alloc, track.format.as_slice())?,
    })
}
