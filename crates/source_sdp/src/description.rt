//! The description of a server.
ghost use Rattle.std.specs.Prelude.{◌≡◌, ◌↔◌, ◌<◌, ◌≤◌, [], length, IfOk, Err};
ghost use Rattle.source_sdp.specs.Usable.{AreUsable};
ghost use Rattle.sdp.specs.Readings.{Reads};
ghost use Rattle.source_sdp.specs.Announced.{announced_sections, announced_text};
ghost use Rattle.source_sdp.specs.Kept.{kept_among};
ghost use Rattle.source_sdp.specs.declared.announce_error.AnnounceError.TheVariants.{NoTrack, TooLong};

use crate::MAX_ANNOUNCED_BYTES;
use crate::announce_error::AnnounceError;
use crate::keeping::keeps_track;
use crate::left_out::LeftOut;
use crate::room::after_tracks;
use crate::track::SourceTrack;
use crate::writing::write_tracks;
use base_syntax::{Bytes, Items};
use std::alloc::Global;

/// What a server's description offers. It may have no track.
#[derive(Drop)]
pub struct SourceDescription {
    /// The value of the first `a=control` line before the media sections, relative to which the tracks' controls are (RFC 2326, C.1.1).
    pub control: Option<Bytes>,
    /// The tracks, in the order of the description: 16 at most.
    pub tracks: Items<SourceTrack>,
    /// The media sections that aren't tracks, in the order of the description.
    pub left_out: Items<LeftOut>,
    ghost usable: { AreUsable tracks },
}

impl SourceDescription {
    /// Returns the description that is announced for the tracks that go on: those whose flag in `kept` is true, by their places. A track
    /// without a flag doesn't go on. The controls are `trackID=0`, `trackID=1` and so on, counted over the tracks that go on, in their
    /// order. `sdp::read` reads the text as exactly these tracks.
    pub fn announced(&self, alloc: Global, kept: &[bool]) -> Result<Vec<u8>, AnnounceError>
        ensures text { IfOk result (λ text. text.items ≡ announced_text (kept_among self.now.tracks kept.now)) }
        ensures accepted { IfOk result (λ text. Reads text.items (announced_sections (kept_among self.now.tracks kept.now))) }
        ensures fits { IfOk result (λ text. length text.items ≤ MAX_ANNOUNCED_BYTES) }
        ensures none { (kept_among self.now.tracks kept.now ≡ []) ↔ (result ≡ Err NoTrack) }
        ensures long { MAX_ANNOUNCED_BYTES < length (announced_text (kept_among self.now.tracks kept.now)) ↔ (result ≡ Err TooLong) }
    {
        let tracks = self.tracks.as_slice();
        if !keeps_track(tracks, kept) {
            return Err(AnnounceError::NoTrack);
        }
        if after_tracks(MAX_ANNOUNCED_BYTES, tracks, kept).is_none() {
            return Err(AnnounceError::TooLong);
        }
        Ok(write_tracks(alloc, tracks, kept)?)
    }
}
