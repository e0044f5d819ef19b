//! Reading a server's description.
ghost use Rattle.std.specs.Prelude.{◌≡◌, ◌<◌, ◌↔◌, length, IfOk, Err};
ghost use Rattle.source_sdp.specs.Readings.{IsReading, LeavesAllOut, OffersNoTrack};
ghost use Rattle.source_sdp.specs.declared.read_error.ReadError.TheVariants.{TooLong};

use crate::MAX_DESCRIPTION_BYTES;
use crate::control::{copied, session_control};
use crate::description::SourceDescription;
use crate::lines::read_lines;
use crate::read_error::ReadError;
use crate::section::before_media;
use crate::sorting::{Sorted, sort_sections};
use std::alloc::{AllocError, Global};

/// Reads a text of any length.
fn read_text(alloc: Global, bytes: &[u8]) -> Result<SourceDescription, AllocError>
    ensures { IfOk result (IsReading bytes.now) }
{
    let lines = read_lines(alloc, bytes)?;
    let control = copied(alloc, session_control(before_media(lines.as_slice())))?;
    let Sorted { tracks, left_out } = sort_sections(alloc, lines.as_slice())?;
    Ok(SourceDescription {
        control,
        tracks,
        left_out,
    })
}

/// Reads a server's description, leniently (RFC 4566; RFC 2327; RFC 2326, C.1). Lines end with LF or CRLF. NUL, blanks and CR at the end
/// of a line don't count. A line that neither begins `m=` nor is of the form `<type>=<value>` is dropped. A text without a track that can
/// be used is read too. Fails if the text has more than `MAX_DESCRIPTION_BYTES` bytes or memory runs out.
pub fn read(alloc: Global, bytes: &[u8]) -> Result<SourceDescription, ReadError>
    ensures read { IfOk result (IsReading bytes.now) }
    ensures none { OffersNoTrack bytes.now → IfOk result (LeavesAllOut bytes.now) }
    ensures long { MAX_DESCRIPTION_BYTES < length bytes.now ↔ (result ≡ Err TooLong) }
{
    if bytes.len() > MAX_DESCRIPTION_BYTES {
        return Err(ReadError::TooLong);
    }
    Ok(read_text(alloc, bytes)?)
}
