//! What an `m=` line of a server says (RFC 4566, 5.14).
ghost use Rattle.std.specs.Prelude.{◌≡◌, ◌≤◌, length, IfOk, IfNone, IfSome, Err};
ghost use Rattle.std.specs.List.{list_all};
ghost use Rattle.sdp.specs.Media.{words};
ghost use Rattle.source_sdp.specs.Usable.{is_format_byte as may_stand, is_format as is_good, are_formats as are_good};
ghost use Rattle.source_sdp.specs.Heading.{media_named as named, heading_for, heading_by, heading_of};
ghost use Rattle.source_sdp.specs.declared.reason.Reason.TheVariants.{Unreadable};

use crate::field::is_field;
use crate::media::Media;
use crate::reason::Reason;
use crate::words::{next_word, read_words};
use base_syntax::{Bytes, Items};
use std::alloc::{AllocError, Global};

/// What an `m=` line says.
#[derive(Drop)]
pub(crate) struct Heading {
    pub media: Media,
    pub formats: Items<Bytes>,
}

fn is_format_byte(byte: u8) -> bool
    ensures { result ≡ may_stand byte }
{
    byte > 32 && !(byte == 127)
}

fn has_format_bytes(text: &[u8]) -> bool
    ensures { result ≡ list_all may_stand text.now }
{
    text.iter().all(|byte| is_format_byte(*byte))
}

fn is_format(text: &[u8]) -> bool
    ensures { result ≡ is_good text.now }
{
    text.len() > 0 && has_format_bytes(text)
}

fn has_formats(formats: &[Bytes]) -> bool
    ensures { result ≡ list_all is_good formats.now }
{
    formats.iter().all(|format| is_format(format.as_slice()))
}

fn are_formats(formats: &[Bytes]) -> bool
    ensures { result ≡ are_good formats.now }
{
    formats.len() > 0 && has_formats(formats)
}

/// The media that a word names, of those that are relayed.
fn media_named(word: &[u8]) -> Option<Media>
    ensures { result ≡ named word.now }
{
    if word == b"audio".as_slice() {
        Some(Media::Audio)
    } else if word == b"video".as_slice() {
        Some(Media::Video)
    } else {
        None
    }
}

/// The media, the protocol and the text of the formats in what an `m=` line says.
fn find_words(value: &[u8]) -> Option<(&[u8], &[u8], &[u8])>
    ensures some { IfSome result (λ r. heading_by (words value.now) ≡ heading_for (named r.0.now) r.1.now (words r.2.now)) }
    ensures none { IfNone result (heading_by (words value.now) ≡ Err Unreadable) }
{
    let (media, rest) = next_word(value)?;
    let (_, rest) = next_word(rest)?;
    let (proto, formats) = next_word(rest)?;
    Some((media, proto, formats))
}

/// What is sent by a protocol in these formats, or why it isn't relayed.
fn judge_words(
    alloc: Global,
    media: &[u8],
    proto: &[u8],
    formats: &[u8],
) -> Result<Result<Heading, Reason>, AllocError>
    ensures { IfOk result (λ heading. heading ≡ heading_for (named media.now) proto.now (words formats.now)) }
{
    let Some(media) = media_named(media) else {
        return Ok(Err(Reason::OtherMedia));
    };
    if proto != b"RTP/AVP".as_slice() {
        return Ok(Err(Reason::OtherProtocol));
    }
    let formats = read_words(alloc, formats)?;
    if !are_formats(formats.as_slice()) {
        return Ok(Err(Reason::Unreadable));
    }
    Ok(Ok(Heading { media, formats }))
}

/// What an `m=` line says, or why its section isn't relayed.
pub(crate) fn read_heading(
    alloc: Global,
    line: &[u8],
) -> Result<Result<Heading, Reason>, AllocError>
    requires { 2 ≤ length line.now }
    ensures { IfOk result (λ heading. heading ≡ heading_of line.now) }
{
    if !is_field(line) {
        return Ok(Err(Reason::Unreadable));
    }
    match find_words(&line[2..]) {
        Some((media, proto, formats)) => judge_words(alloc, media, proto, formats),
        None => Ok(Err(Reason::Unreadable)),
    }
}
