//! Writing the description that is announced.
ghost use Rattle.std.specs.Prelude.{◌≡◌, ◌++◌, ◌∷◌, [], codes, IfOk, OnOk};
ghost use Rattle.std.specs.List.{flat_map};
ghost use Rattle.sdp.specs.Sections.{lines_of};
ghost use Rattle.sdp.specs.Written.{written};
ghost use Rattle.source_sdp.specs.Announced.{announced_text, control_line, media_line, session_lines, spaced, track_lines, tracks_from};
ghost use Rattle.source_sdp.specs.Kept.{kept_among};

use crate::keeping::is_kept;
use crate::track::SourceTrack;
use base_syntax::Bytes;
use itoa::Buffer;
use std::alloc::{AllocError, Global};

/// The lines before the first track. They say nothing of the source.
pub(crate) const SESSION: &[u8] =
    b"v=0\r\no=- 0 0 IN IP4 0.0.0.0\r\ns=-\r\nc=IN IP4 0.0.0.0\r\nt=0 0\r\n";

/// What an `m=` line begins with, before the media.
pub(crate) const MEDIA: &[u8] = b"m=";

/// What is between the media and the formats of an `m=` line: no port, and the protocol.
pub(crate) const PROTOCOL: &[u8] = b" 0 RTP/AVP";

/// What a control begins with, before the number of its track.
pub(crate) const CONTROL: &[u8] = b"a=control:trackID=";

/// What ends a line.
pub(crate) const LINE_END: &[u8] = b"\r\n";

/// Appends formats, each with the space before it.
fn write_formats(out: &mut Vec<u8>, formats: &[Bytes]) -> Result<(), AllocError>
    ensures { OnOk result (out.new.items ≡ out.old.items ++ flat_map spaced formats.now) }
{
    for format in formats {
        out.extend_from_slice(b" ")?;
        out.extend_from_slice(format.as_slice())?;
    }
    Ok(())
}

/// Appends the `m=` line of a track.
fn write_media_line(out: &mut Vec<u8>, track: &SourceTrack) -> Result<(), AllocError>
    ensures { OnOk result (out.new.items ≡ out.old.items ++ written (media_line track.now)) }
{
    out.extend_from_slice(MEDIA)?;
    out.extend_from_slice(track.media.text())?;
    out.extend_from_slice(PROTOCOL)?;
    write_formats(out, track.formats.as_slice())?;
    out.extend_from_slice(LINE_END)
}

/// Appends lines, each with CRLF.
fn write_lines(out: &mut Vec<u8>, lines: &[Bytes]) -> Result<(), AllocError>
    ensures { OnOk result (out.new.items ≡ out.old.items ++ flat_map written lines.now) }
{
    for line in lines {
        out.extend_from_slice(line.as_slice())?;
        out.extend_from_slice(LINE_END)?;
    }
    Ok(())
}

/// Appends the control of the track with a number.
fn write_control(out: &mut Vec<u8>, number: usize) -> Result<(), AllocError>
    ensures { OnOk result (out.new.items ≡ out.old.items ++ written (control_line number)) }
{
    let mut digits = Buffer::new();
    out.extend_from_slice(CONTROL)?;
    out.extend_from_slice(digits.format(number).as_bytes())?;
    out.extend_from_slice(LINE_END)
}

/// Appends the track with a number.
fn write_track(out: &mut Vec<u8>, number: usize, track: &SourceTrack) -> Result<(), AllocError>
    ensures { OnOk result (out.new.items ≡ out.old.items ++ flat_map written (track_lines number track.now)) }
{
    write_media_line(out, track)?;
    write_lines(out, track.attributes.as_slice())?;
    write_control(out, number)?;
    Ok(())
}

/// Returns the text that is announced for the tracks that go on, in their order. The one of number k among them, counted from 0, has the
/// control `trackID=k`. Each line ends with CRLF.
pub(crate) fn write_tracks(
    alloc: Global,
    tracks: &[SourceTrack],
    kept: &[bool],
) -> Result<Vec<u8>, AllocError>
    ensures { IfOk result (λ out. out.items ≡ announced_text (kept_among tracks.now kept.now)) }
{
    let mut out = Vec::from_slice(alloc, SESSION)?;
    let mut number = 0usize;
    for (place, track) in tracks.iter().enumerate() {
        if is_kept(kept, place) {
            write_track(&mut out, number, track)?;
            number += 1;
        }
    }
    Ok(out)
}
