//! Cases of a camera's description.

use case_texts::{Arguments, Fault, Told};
use source_sdp::{
    AnnounceError, LeftOut, MAX_TRACKS, Media, ReadError, SourceDescription, SourceTrack, read,
};
use std::alloc::{AllocError, Global};

/// A camera's description, once it came.
#[derive(Drop)]
pub struct SourceCase {
    description: Option<SourceDescription>,
}

impl SourceCase {
    /// No description came.
    pub fn new() -> SourceCase {
        SourceCase { description: None }
    }

    /// Reads a description, and tells its control, its tracks and what is left out.
    pub fn describe(&mut self, bytes: &[u8], told: &mut Told) -> Result<(), AllocError> {
        self.description = match read(told.alloc(), bytes) {
            Ok(description) => {
                tell_description(&description, told)?;
                Some(description)
            }
            Err(ReadError::OutOfMemory) => return Err(AllocError),
            Err(error) => {
                told.fact(format!(in told.alloc(); "{error}")?.as_bytes())?;
                None
            }
        };
        Ok(())
    }

    pub fn call(
        &mut self,
        word: &[u8],
        arguments: &mut Arguments<'_>,
        told: &mut Told,
    ) -> Result<(), Fault> {
        let Some(description) = &self.description else {
            return Err(Fault::NoStep);
        };
        let kept = flags(arguments, told.alloc())?;
        match word {
            b"announce" => announce(description, &kept, told),
            b"accepted" => tell_accepted(description, &kept, told),
            _ => Err(Fault::UnknownWord),
        }
    }
}

/// Takes flags: `yes` or another word each, or `all` for all tracks that there can be.
fn flags(arguments: &mut Arguments<'_>, alloc: Global) -> Result<Vec<bool>, Fault> {
    let mut kept = Vec::new(alloc);
    for word in &arguments.words(alloc)? {
        if *word == b"all".as_slice() {
            kept.extend_from_slice(&[true; MAX_TRACKS])?;
        } else {
            kept.push(*word == b"yes".as_slice())?;
        }
    }
    Ok(kept)
}

/// `announce FLAG ..`: the description that goes on, for the tracks whose flag is `yes`.
fn announce(description: &SourceDescription, kept: &[bool], told: &mut Told) -> Result<(), Fault> {
    match description.announced(told.alloc(), kept) {
        Ok(text) => told.text = text,
        Err(AnnounceError::OutOfMemory) => return Err(Fault::OutOfMemory),
        Err(error) => told.fact(format!(in told.alloc(); "{error}")?.as_bytes())?,
    }
    Ok(())
}

/// `accepted FLAG ..`: how many tracks a server reads in the description that goes on.
fn tell_accepted(
    description: &SourceDescription,
    kept: &[bool],
    told: &mut Told,
) -> Result<(), Fault> {
    let Ok(text) = description.announced(told.alloc(), kept) else {
        return Ok(told.fact(b"none")?);
    };
    match sdp::read(told.alloc(), &text) {
        Ok(description) => Ok(told.number(Some(description.tracks().len() as u64))?),
        Err(_) => Ok(told.fact(b"refused")?),
    }
}

fn tell_description(description: &SourceDescription, told: &mut Told) -> Result<(), AllocError> {
    if let Some(control) = &description.control {
        told.named(b"control", control.as_slice())?;
    }
    for track in description.tracks.as_slice() {
        tell_track(track, told)?;
    }
    let (front, back) = front_of(description.left_out.as_slice());
    for section in front {
        tell_left_out(section, told)?;
    }
    match back.len() {
        0 => Ok(()),
        more => told.fact(format!(in told.alloc(); "left out {more} more")?.as_bytes()),
    }
}

/// Returns the sections that are told, and those that are only counted.
fn front_of(sections: &[LeftOut]) -> (&[LeftOut], &[LeftOut]) {
    sections.split_at(sections.len().min(MAX_TRACKS))
}

/// Tells the media of a track, its formats, and its control, where it has one.
fn tell_track(track: &SourceTrack, told: &mut Told) -> Result<(), AllocError> {
    let media: &[u8] = match track.media {
        Media::Audio => b"audio",
        Media::Video => b"video",
    };
    told.facts.extend_from_slice(media)?;
    for format in track.formats.as_slice() {
        told.facts.push(b' ')?;
        told.facts.extend_from_slice(format.as_slice())?;
    }
    if let Some(control) = &track.control {
        told.facts.extend_from_slice(b" control=")?;
        told.facts.extend_from_slice(control.as_slice())?;
    }
    told.fact(b"")
}

fn tell_left_out(section: &LeftOut, told: &mut Told) -> Result<(), AllocError> {
    let place = section.place;
    let reason = section.reason;
    told.fact(format!(in told.alloc(); "left out {place}: {reason}")?.as_bytes())
}
