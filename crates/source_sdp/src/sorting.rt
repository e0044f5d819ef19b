//! Which media sections are tracks, and why others aren't.
ghost use Rattle.std.specs.Prelude.{◌≡◌, ◌≤◌, length, IfOk, OnOk};
ghost use Rattle.std.specs.List.{list_any};
ghost use Rattle.source_sdp.specs.Section.{sections_of};
ghost use Rattle.source_sdp.specs.Sorting.{lacks_control, reason_after as reason_for, track_of, leaving_out, taking, with_heading, with_section, sorted_out};

use crate::MAX_TRACKS;
use crate::control::{copied, track_control};
use crate::field::is_media;
use crate::heading::{Heading, read_heading};
use crate::left_out::LeftOut;
use crate::reason::Reason;
use crate::section::{before_media, has_sendonly, read_attributes};
use crate::track::SourceTrack;
use base_syntax::{Bytes, Items};
use std::alloc::{AllocError, Global};

/// The tracks, and the media sections that are left out, each list in the order of the description.
#[derive(Drop)]
pub(crate) struct Sorted {
    pub tracks: Items<SourceTrack>,
    pub left_out: Items<LeftOut>,
}

/// Whether one of these tracks has no control.
fn has_bare(tracks: &[SourceTrack]) -> bool
    ensures { result ≡ list_any lacks_control tracks.now }
{
    tracks.iter().any(|track| track.control.is_none())
}

/// Why a readable section isn't taken after these tracks.
fn reason_after(taken: &[SourceTrack], lines: &[Bytes]) -> Option<Reason>
    ensures { result ≡ reason_for taken.now lines.now }
{
    if has_sendonly(lines) {
        Some(Reason::SendOnly)
    } else if track_control(lines).is_none() && has_bare(taken) {
        Some(Reason::NoControl)
    } else if taken.len() >= MAX_TRACKS {
        Some(Reason::TooManyTracks)
    } else {
        None
    }
}

/// The track that a section is.
fn read_track(alloc: Global, heading: Heading, lines: &[Bytes]) -> Result<SourceTrack, AllocError>
    ensures { IfOk result (λ track. track ≡ track_of heading lines.now) }
{
    let Heading { media, formats } = heading;
    Ok(SourceTrack {
        media,
        formats,
        attributes: read_attributes(alloc, lines)?,
        control: copied(alloc, track_control(lines))?,
    })
}

impl Sorted {
    /// Leaves a section out.
    fn leave_out(&mut self, place: usize, reason: Reason) -> Result<(), AllocError>
        ensures { OnOk result (self.new ≡ leaving_out self.old place reason) }
    {
        self.left_out.push(LeftOut { place, reason })
    }

    /// Takes a section whose `m=` line says this, if there is no reason against it.
    fn add_readable(
        &mut self,
        alloc: Global,
        place: usize,
        heading: Heading,
        lines: &[Bytes],
    ) -> Result<(), AllocError>
        ensures { OnOk result (self.new ≡ taking self.old place (track_of heading lines.now) (reason_for self.old.tracks lines.now)) }
    {
        match reason_after(self.tracks.as_slice(), lines) {
            Some(reason) => self.leave_out(place, reason),
            None => self.tracks.push(read_track(alloc, heading, lines)?),
        }
    }

    /// Adds the section of this place.
    fn add(
        &mut self,
        alloc: Global,
        place: usize,
        head: &[u8],
        lines: &[Bytes],
    ) -> Result<(), AllocError>
        requires { 2 ≤ length head.now }
        ensures { OnOk result (self.new ≡ with_section self.old place (record { head = head.now; lines = lines.now })) }
    {
        match read_heading(alloc, head)? {
            Ok(heading) => self.add_readable(alloc, place, heading, lines),
            Err(reason) => self.leave_out(place, reason),
        }
    }
}

/// Sorts the media sections of lines.
pub(crate) fn sort_sections(alloc: Global, lines: &[Bytes]) -> Result<Sorted, AllocError>
    ensures { IfOk result (λ sorted. sorted ≡ sorted_out (sections_of lines.now)) }
{
    let mut sorted = Sorted {
        tracks: Items::empty(alloc),
        left_out: Items::empty(alloc),
    };
    let mut place = 0usize;
    for (i, line) in lines.iter().enumerate() {
        if is_media(line.as_slice()) {
            let section = before_media(&lines[i + 1..]);
            sorted.add(alloc, place, line.as_slice(), section)?;
            place += 1;
        }
    }
    Ok(sorted)
}
