//! The lines of a server's description (RFC 4566, 5).
ghost use Rattle.std.specs.Prelude.{◌≡◌, ◌++◌, ◌∷◌, [], IfOk, OnOk};
ghost use Rattle.source_sdp.specs.Lines.{is_padding as may_be_dropped, without_padding as unpadded, is_kept_line as may_count, kept_lines, lines_in};

use crate::field::{is_field, is_media};
use base_syntax::{Bytes, Items, cut};
use std::alloc::{AllocError, Global};

/// Whether a byte doesn't count at the end of a line.
fn is_padding(byte: u8) -> bool
    ensures { result ≡ may_be_dropped byte }
{
    byte == 0 || (byte == b' ' || (byte == b'\t' || byte == b'\r'))
}

/// The line without what doesn't count at its end.
fn without_padding(line: &[u8]) -> &[u8]
    ensures { result.now ≡ unpadded line.now }
{
    let mut end = line.len();
    while end > 0 && is_padding(line[end - 1]) {
        end -= 1;
    }
    &line[..end]
}

/// Whether a line is kept.
fn is_kept_line(line: &[u8]) -> bool
    ensures { result ≡ may_count line.now }
{
    is_media(line) || is_field(line)
}

/// Adds a line, if it is kept.
fn add_line(lines: &mut Items<Bytes>, alloc: Global, line: &[u8]) -> Result<(), AllocError>
    ensures { OnOk result (lines.new ≡ lines.old ++ kept_lines (line.now ∷ [])) }
{
    let line = without_padding(line);
    if is_kept_line(line) {
        lines.push(Bytes::from_slice(alloc, line)?)?;
    }
    Ok(())
}

/// The lines of a text that are kept.
pub(crate) fn read_lines(alloc: Global, text: &[u8]) -> Result<Items<Bytes>, AllocError>
    ensures { IfOk result (λ lines. lines ≡ lines_in text.now) }
{
    let mut lines = Items::empty(alloc);
    let mut rest = Some(text);
    while let Some(text) = rest {
        let (line, behind) = cut(text, b'\n');
        add_line(&mut lines, alloc, line)?;
        rest = behind;
    }
    Ok(lines)
}
