//! The lines of a media section (RFC 4566, 5.14).
ghost use Rattle.std.specs.Prelude.{◌≡◌, filter, IfOk};
ghost use Rattle.std.specs.List.{list_any};
ghost use Rattle.source_sdp.specs.Usable.{describes_format as is_attribute};
ghost use Rattle.source_sdp.specs.Section.{before_media as front};
ghost use Rattle.source_sdp.specs.Sorting.{is_sendonly as is_for_client};

use crate::field::{describes_format, is_media, is_sendonly};
use base_syntax::{Bytes, Items};
use std::alloc::{AllocError, Global};

/// The lines before the first `m=` line.
pub(crate) fn before_media(lines: &[Bytes]) -> &[Bytes]
    ensures { result.now ≡ front lines.now }
{
    for (i, line) in lines.iter().enumerate() {
        if is_media(line.as_slice()) {
            return &lines[..i];
        }
    }
    lines
}

/// Whether a line says that the section is for the client to send.
pub(crate) fn has_sendonly(lines: &[Bytes]) -> bool
    ensures { result ≡ list_any is_for_client lines.now }
{
    lines.iter().any(|line| is_sendonly(line.as_slice()))
}

/// The lines that describe formats.
pub(crate) fn read_attributes(alloc: Global, lines: &[Bytes]) -> Result<Items<Bytes>, AllocError>
    ensures { IfOk result (λ attributes. attributes ≡ filter is_attribute lines.now) }
{
    let mut attributes = Items::empty(alloc);
    for line in lines {
        if describes_format(line.as_slice()) {
            attributes.push(Bytes::from_slice(alloc, line.as_slice())?)?;
        }
    }
    Ok(attributes)
}
