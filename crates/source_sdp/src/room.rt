//! Whether the description that is announced fits, found before memory is taken for it.
ghost use Rattle.std.specs.Prelude.{◌≡◌, ◌+◌, ◌<◌, length, IfSome, IfNone};
ghost use Rattle.std.specs.List.{flat_map};
ghost use Rattle.sdp.specs.Written.{written};
ghost use Rattle.source_sdp.specs.Announced.{announced_text, control_line, media_line, spaced, track_lines};
ghost use Rattle.source_sdp.specs.Kept.{kept_among};

use crate::keeping::is_kept;
use crate::track::SourceTrack;
use crate::writing::{CONTROL, LINE_END, MEDIA, PROTOCOL, SESSION};
use base_syntax::Bytes;
use itoa::Buffer;

/// Returns what is left of `room` bytes after formats, each with the space before it, or `None` if they have more bytes.
fn after_formats(room: usize, formats: &[Bytes]) -> Option<usize>
    ensures left { IfSome result (λ left. left + length (flat_map spaced formats.now) ≡ room) }
    ensures none { IfNone result (room < length (flat_map spaced formats.now)) }
{
    let mut left = room;
    for format in formats {
        left = left.checked_sub(1)?.checked_sub(format.len())?;
    }
    Some(left)
}

/// Returns what is left after the `m=` line of a track.
fn after_media_line(room: usize, track: &SourceTrack) -> Option<usize>
    ensures left { IfSome result (λ left. left + length (written (media_line track.now)) ≡ room) }
    ensures none { IfNone result (room < length (written (media_line track.now))) }
{
    let words = MEDIA.len() + track.media.text().len() + PROTOCOL.len() + LINE_END.len();
    after_formats(room.checked_sub(words)?, track.formats.as_slice())
}

/// Returns what is left after lines, each with CRLF.
fn after_lines(room: usize, lines: &[Bytes]) -> Option<usize>
    ensures left { IfSome result (λ left. left + length (flat_map written lines.now) ≡ room) }
    ensures none { IfNone result (room < length (flat_map written lines.now)) }
{
    let mut left = room;
    for line in lines {
        left = left.checked_sub(line.len())?.checked_sub(LINE_END.len())?;
    }
    Some(left)
}

/// Returns what is left after the control of the track with a number.
fn after_control(room: usize, number: usize) -> Option<usize>
    ensures left { IfSome result (λ left. left + length (written (control_line number)) ≡ room) }
    ensures none { IfNone result (room < length (written (control_line number))) }
{
    let mut digits = Buffer::new();
    room.checked_sub(CONTROL.len() + digits.format(number).len() + LINE_END.len())
}

/// Returns what is left after the track with a number.
fn after_track(room: usize, number: usize, track: &SourceTrack) -> Option<usize>
    ensures left { IfSome result (λ left. left + length (flat_map written (track_lines number track.now)) ≡ room) }
    ensures none { IfNone result (room < length (flat_map written (track_lines number track.now))) }
{
    let left = after_media_line(room, track)?;
    let left = after_lines(left, track.attributes.as_slice())?;
    after_control(left, number)
}

/// Returns what is left after the description that is announced for the tracks that go on.
pub(crate) fn after_tracks(room: usize, tracks: &[SourceTrack], kept: &[bool]) -> Option<usize>
    ensures left { IfSome result (λ left. left + length (announced_text (kept_among tracks.now kept.now)) ≡ room) }
    ensures none { IfNone result (room < length (announced_text (kept_among tracks.now kept.now))) }
{
    let mut left = room.checked_sub(SESSION.len())?;
    let mut number = 0usize;
    for (place, track) in tracks.iter().enumerate() {
        if is_kept(kept, place) {
            left = after_track(left, number, track)?;
            number += 1;
        }
    }
    Some(left)
}
