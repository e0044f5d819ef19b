//! Control attributes (RFC 2326, C.1.1).
ghost use Rattle.std.specs.Prelude.{◌≡◌, IfOk};
ghost use Rattle.std.specs.Option.{option_copied};
ghost use Rattle.sdp.specs.Fields.{control_among};
ghost use Rattle.source_sdp.specs.Control.{is_base as is_base_url, control_of};

use base_syntax::{Bytes, trim};
use std::alloc::{AllocError, Global};

/// Whether a control stands for the base URL, so that it names no track.
fn is_base(control: &[u8]) -> bool
    ensures { result ≡ is_base_url control.now }
{
    let control = trim(control);
    control == b"".as_slice() || control == b"*".as_slice()
}

/// The control of the session whose lines these are: the value of the first control attribute.
pub(crate) fn session_control(lines: &[Bytes]) -> Option<&[u8]>
    ensures { option_copied result ≡ control_among lines.now }
{
    for line in lines {
        if let Some(control) = line.as_slice().strip_prefix(b"a=control:") {
            return Some(control);
        }
    }
    None
}

/// The control of the track whose lines these are: the value of the first control attribute that names a track.
pub(crate) fn track_control(lines: &[Bytes]) -> Option<&[u8]>
    ensures { option_copied result ≡ control_of lines.now }
{
    for line in lines {
        if let Some(control) = line.as_slice().strip_prefix(b"a=control:") {
            if !is_base(control) {
                return Some(control);
            }
        }
    }
    None
}

/// A copy of a control.
pub(crate) fn copied(alloc: Global, control: Option<&[u8]>) -> Result<Option<Bytes>, AllocError>
    ensures { IfOk result (λ own. own ≡ option_copied control.entry) }
{
    match control {
        Some(control) => Ok(Some(Bytes::from_slice(alloc, control)?)),
        None => Ok(None),
    }
}
