//! Cases of descriptions.

use case_texts::Told;
use sdp::{Description, SdpFault, Track, read, write};
use std::alloc::AllocError;

/// Tells what a description reads as, and what is written of it for players; or what is wrong with it.
pub fn tell_description(bytes: &[u8], told: &mut Told) -> Result<(), AllocError> {
    match read(told.alloc(), bytes) {
        Ok(description) => tell_read(&description, told),
        Err(SdpFault::OutOfMemory) => Err(AllocError),
        Err(fault) => {
            let number = fault.number();
            told.fact(format!(in told.alloc(); "fault {number}")?.as_bytes())
        }
    }
}

fn tell_read(description: &Description, told: &mut Told) -> Result<(), AllocError> {
    told.text = write(told.alloc(), description)?;
    for track in description.tracks() {
        tell_track(track, told)?;
    }
    Ok(())
}

/// Tells the media of a track, its formats, and its control, where one was announced.
fn tell_track(track: &Track, told: &mut Told) -> Result<(), AllocError> {
    told.facts.extend_from_slice(track.media.as_slice())?;
    for format in track.formats.as_slice() {
        told.facts.push(b' ')?;
        told.facts.extend_from_slice(format.as_slice())?;
    }
    if let Some(control) = &track.control {
        told.facts.extend_from_slice(b" control=")?;
        told.facts.extend_from_slice(control.as_slice())?;
    }
    told.fact(b"")
}
