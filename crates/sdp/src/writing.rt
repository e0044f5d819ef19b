//! Writing a description for players (RFC 2326, C.1.1).
ghost use Rattle.std.specs.Prelude.{◌≡◌, ◌++◌, ◌∷◌, [], IfOk, OnOk};
ghost use Rattle.std.specs.List.{flat_map};
ghost use Rattle.sdp.specs.Fields.{control_prefix};
ghost use Rattle.sdp.specs.Written.{written, without_controls, track_control, track_lines, lines_from, description_text};

use crate::description::Description;
use crate::field::control_value;
use crate::sections::Sections;
use crate::track::Track;
use base_syntax::Bytes;
use itoa::Buffer;
use std::alloc::{AllocError, Global};

/// The most bytes of a line that `write` adds: the control attribute of a track's number, below 16.
const CONTROL_LEN: usize = b"a=control:trackID=15\r\n".len();

/// Appends lines, but for control attributes, each with CRLF.
fn write_lines(out: &mut Vec<u8>, lines: &[Bytes]) -> Result<(), AllocError>
    ensures { OnOk result (out.new.items ≡ out.old.items ++ flat_map written (without_controls lines.now)) }
{
    for line in lines {
        if control_value(line.as_slice()).is_none() {
            out.extend_from_slice(line.as_slice())?;
            out.extend_from_slice(b"\r\n")?;
        }
    }
    Ok(())
}

/// Appends a control attribute.
fn write_control(out: &mut Vec<u8>, control: &[u8]) -> Result<(), AllocError>
    ensures { OnOk result (out.new.items ≡ out.old.items ++ written (control_prefix ++ control.now)) }
{
    out.extend_from_slice(b"a=control:")?;
    out.extend_from_slice(control)?;
    out.extend_from_slice(b"\r\n")
}

/// Appends a track, with the control of its number.
fn write_track(out: &mut Vec<u8>, number: usize, track: &Track) -> Result<(), AllocError>
    ensures { OnOk result (out.new.items ≡ out.old.items ++ flat_map written (track_lines number track.now)) }
{
    let mut digits = Buffer::new();
    write_lines(out, track.lines.as_slice())?;
    out.extend_from_slice(b"a=control:trackID=")?;
    out.extend_from_slice(digits.format(number).as_bytes())?;
    out.extend_from_slice(b"\r\n")?;
    Ok(())
}

/// Appends tracks, numbered from 0.
fn write_tracks(out: &mut Vec<u8>, tracks: &[Track]) -> Result<(), AllocError>
    ensures { OnOk result (out.new.items ≡ out.old.items ++ flat_map written (lines_from 0 tracks.now)) }
{
    for (number, track) in tracks.iter().enumerate() {
        write_track(out, number, track)?;
    }
    Ok(())
}

/// How many bytes lines take, each with CRLF.
fn len_of(lines: &[Bytes]) -> usize {
    let mut len = 0usize;
    for line in lines {
        len = len.saturating_add(line.len()).saturating_add(2);
    }
    len
}

/// How many bytes the text of these sections takes at most. Announced controls count, though they aren't written:
/// they are few, and lines needn't be told apart twice.
fn room_for(sections: &Sections) -> usize {
    let mut room = len_of(sections.session.as_slice()).saturating_add(CONTROL_LEN);
    for track in sections.tracks.as_slice() {
        let lines = len_of(track.lines.as_slice());
        room = room.saturating_add(lines).saturating_add(CONTROL_LEN);
    }
    room
}

/// The text of the description that has these sections.
pub(crate) fn text_of(alloc: Global, sections: &Sections) -> Result<Vec<u8>, AllocError>
    ensures { IfOk result (λ out. out.items ≡ description_text sections.now) }
{
    // A text that grows would be copied again and again.
    let mut out = Vec::with_capacity(alloc, room_for(sections))?;
    write_lines(&mut out, sections.session.as_slice())?;
    write_control(&mut out, b"*")?;
    write_tracks(&mut out, sections.tracks.as_slice())?;
    Ok(out)
}

/// The text of a description for players: its lines without the announced controls, with the control `*` for
/// the session and `trackID=k` for the track of number k, counted from 0 (RFC 2326, C.1.1). Each line
/// ends with CRLF.
pub fn write(alloc: Global, description: &Description) -> Result<Vec<u8>, AllocError>
    ensures { IfOk result (λ out. out.items ≡ description_text description.now) }
{
    Vec::from_slice(alloc, description.text())
}
