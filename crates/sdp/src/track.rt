//! A media section of a description (RFC 4566, 5.14).
ghost use Rattle.std.specs.Prelude.{◌≡◌, ◌<◌, ◌∷◌, [], None, length, IfOk, OnOk};
ghost use Rattle.std.specs.Option.{option_map};

use crate::field::control_value;
use crate::words::read_words;
use base_syntax::{Bytes, Items};
use std::alloc::{AllocError, Global};

/// A track: an `m=` line and the lines after it, up to the next one.
#[derive(Drop)]
pub struct Track {
    /// What is sent, as `audio` or `video`.
    pub media: Bytes,
    /// The payload formats, one or more.
    pub formats: Items<Bytes>,
    /// The announced control: the value of the first `a=control:` line (RFC 2326, C.1.1).
    pub control: Option<Bytes>,
    /// All lines as they were announced, the `m=` line first.
    pub lines: Items<Bytes>,
}

impl Track {
    ghost use Rattle.sdp.specs.Steps.{with_line, control_with};
    ghost use Rattle.sdp.specs.Media.{words};

    /// A track that an `m=` line opens, of which these are the media and the text of the formats.
    pub(crate) fn open(
        alloc: Global,
        media: &[u8],
        formats: &[u8],
        line: &[u8],
    ) -> Result<Track, AllocError>
        ensures media { IfOk result (λ track. track.media ≡ media.now) }
        ensures formats { IfOk result (λ track. track.formats ≡ words formats.now) }
        ensures control { IfOk result (λ track. track.control ≡ None) }
        ensures lines { IfOk result (λ track. track.lines ≡ line.now ∷ []) }
    {
        let mut lines = Items::empty(alloc);
        lines.push(Bytes::from_slice(alloc, line)?)?;
        Ok(Track {
            media: Bytes::from_slice(alloc, media)?,
            formats: read_words(alloc, formats)?,
            control: None,
            lines,
        })
    }

    /// The track with one more line.
    pub(crate) fn with_line(self, alloc: Global, line: &[u8]) -> Result<Track, AllocError>
        ensures { IfOk result (λ track. track ≡ with_line self line.now) }
    {
        let Track {
            media,
            formats,
            control,
            mut lines,
        } = self;
        let control = first_control(alloc, control, line)?;
        lines.push(Bytes::from_slice(alloc, line)?)?;
        Ok(Track {
            media,
            formats,
            control,
            lines,
        })
    }
}

ghost use Rattle.sdp.specs.Steps.{control_with, ExtendsLast};

/// The control so far, or that of a further line where there is none.
fn first_control(
    alloc: Global,
    control: Option<Bytes>,
    line: &[u8],
) -> Result<Option<Bytes>, AllocError>
    ensures { IfOk result (λ read. read ≡ control_with control line.now) }
{
    match control {
        Some(first) => Ok(Some(first)),
        None => match control_value(line) {
            Some(value) => Ok(Some(Bytes::from_slice(alloc, value)?)),
            None => Ok(None),
        },
    }
}

/// Adds a line to the last track. After an error that track is lost.
pub(crate) fn extend_last(
    tracks: &mut Items<Track>,
    alloc: Global,
    line: &[u8],
) -> Result<(), AllocError>
    requires { 0 < length tracks.old }
    ensures { OnOk result (ExtendsLast tracks.old line.now tracks.new) }
{
    let last = tracks.pop().unwrap();
    tracks.push(last.with_line(alloc, line)?)
}
