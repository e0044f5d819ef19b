//! Quoted strings (RFC 7230, 3.2.6), as they are written.
ghost use Rattle.std.specs.Prelude.{◌≡◌, ◌++◌, length, take, OnOk, OnErr};
ghost use Rattle.std.specs.List.{flat_map};
ghost use Rattle.rtsp_auth.specs.Answers.{quoted_byte, quoted_text};

use crate::front::Front;
use std::alloc::AllocError;

/// Appends a byte of a quoted string.
fn write_byte(out: &mut Vec<u8>, byte: u8) -> Result<(), AllocError>
    ensures text { OnOk result (out.new.items ≡ out.old.items ++ quoted_byte byte) }
    ensures kept { OnErr result (out.new.items ≡ out.old.items) }
{
    match byte {
        b'"' => out.extend_from_slice(b"\\\""),
        b'\\' => out.extend_from_slice(b"\\\\"),
        _ => out.extend_from_slice(&[byte]),
    }
}

/// Appends bytes of a quoted string, or a part of them if memory is refused.
fn write_bytes(out: &mut Vec<u8>, text: &[u8]) -> Result<(), AllocError>
    ensures text { OnOk result (out.new.items ≡ out.old.items ++ flat_map quoted_byte text.now) }
    ensures kept { OnErr result (take (length out.old.items) out.new.items ≡ out.old.items) }
{
    for byte in text {
        write_byte(out, *byte)?;
    }
    Ok(())
}

/// Appends what is before a value, and the value as a quoted string, or a part of them if memory is refused.
#[tactic(auto, unfolding(crate::specs::Answers::quoted_text))]
pub(crate) fn write_quoted(out: &mut Vec<u8>, front: Front, value: &[u8]) -> Result<(), AllocError>
    ensures text { OnOk result (out.new.items ≡ out.old.items ++ quoted_text front value.now) }
    ensures kept { OnErr result (take (length out.old.items) out.new.items ≡ out.old.items) }
{
    out.extend_from_slice(front.text())?;
    out.extend_from_slice(b"\"")?;
    write_bytes(out, value)?;
    out.extend_from_slice(b"\"")
}
