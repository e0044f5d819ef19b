//! What becomes of a value that was appended.
ghost use Rattle.std.specs.Prelude.{◌≡◌, ◌≤◌, ◌⊎◌, length, take, drop, vec_len, Some, IsOk, IfErr, OnOk, OnErr};
ghost use Rattle.rtsp_auth.specs.declared.field_fault.FieldFault.TheVariants.{OutOfMemory};
ghost use Rattle.rtsp_auth.specs.Faults.{IsField, text_fault};

use crate::field_fault::FieldFault;
use crate::items::MOST_FIELD_BYTES;
use crate::plain::has_no_control;
use std::alloc::AllocError;

/// Returns what is wrong with the value of an Authorization field.
fn text_fault(value: &[u8]) -> Option<FieldFault>
    ensures { result ≡ text_fault value.now }
{
    if value.len() > MOST_FIELD_BYTES {
        Some(FieldFault::LongField)
    } else if has_no_control(value) {
        None
    } else {
        Some(FieldFault::ControlCharacter)
    }
}

/// Keeps what was appended after the first `before` bytes if it can be sent, or else drops it.
pub(crate) fn settle(
    out: &mut Vec<u8>,
    before: usize,
    written: Result<(), AllocError>,
) -> Result<(), FieldFault>
    requires { before ≤ vec_len out.old }
    ensures written { OnOk result (IsOk written) }
    ensures ok { OnOk result (out.new.items ≡ out.old.items) }
    ensures fits { OnOk result (IsField (drop before out.old.items)) }
    ensures fault { IfErr result (λ fault. (fault ≡ OutOfMemory) ⊎ (IsOk written × (text_fault (drop before out.old.items) ≡ Some fault))) }
    ensures err { OnErr result (out.new.items ≡ take before out.old.items) }
{
    if written.is_err() {
        out.truncate(before);
        return Err(FieldFault::OutOfMemory);
    }
    if let Some(fault) = text_fault(&out[before..]) {
        out.truncate(before);
        return Err(fault);
    }
    Ok(())
}
