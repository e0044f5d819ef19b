//! Help texts and labels' values, escaped.
ghost use Rattle.std.specs.Prelude.{◌≡◌, ◌++◌, length, take, OnOk, OnErr};
ghost use Rattle.std.specs.List.{flat_map};
ghost use Rattle.exposition.specs.Exposition.{help_byte, help_text, label_text, value_byte};

use std::alloc::AllocError;

/// Appends a byte of a help text, escaped.
fn write_help_byte(out: &mut Vec<u8>, byte: u8) -> Result<(), AllocError>
    ensures text { OnOk result (out.new.items ≡ out.old.items ++ help_byte byte) }
    ensures kept { OnErr result (out.new.items ≡ out.old.items) }
{
    match byte {
        b'\\' => out.extend_from_slice(b"\\\\"),
        b'\n' => out.extend_from_slice(b"\\n"),
        _ => out.extend_from_slice(&[byte]),
    }
}

/// Appends a byte of a label's value, escaped.
fn write_value_byte(out: &mut Vec<u8>, byte: u8) -> Result<(), AllocError>
    ensures text { OnOk result (out.new.items ≡ out.old.items ++ value_byte byte) }
    ensures kept { OnErr result (out.new.items ≡ out.old.items) }
{
    match byte {
        b'"' => out.extend_from_slice(b"\\\""),
        _ => write_help_byte(out, byte),
    }
}

/// Appends a help text, escaped, or a part of it if memory is refused.
pub(crate) fn write_help(out: &mut Vec<u8>, help: &[u8]) -> Result<(), AllocError>
    ensures text { OnOk result (out.new.items ≡ out.old.items ++ help_text help.now) }
    ensures kept { OnErr result (take (length out.old.items) out.new.items ≡ out.old.items) }
{
    for byte in help {
        write_help_byte(out, *byte)?;
    }
    Ok(())
}

/// Appends bytes of a label's value, escaped, or a part of them if memory is refused.
fn write_escaped(out: &mut Vec<u8>, text: &[u8]) -> Result<(), AllocError>
    ensures text { OnOk result (out.new.items ≡ out.old.items ++ flat_map value_byte text.now) }
    ensures kept { OnErr result (take (length out.old.items) out.new.items ≡ out.old.items) }
{
    for byte in text {
        write_value_byte(out, *byte)?;
    }
    Ok(())
}

/// Appends a label's value, escaped and as UTF-8, or a part of it if memory is refused.
pub(crate) fn write_value(out: &mut Vec<u8>, value: &[u8]) -> Result<(), AllocError>
    ensures text { OnOk result (out.new.items ≡ out.old.items ++ label_text value.now) }
    ensures kept { OnErr result (take (length out.old.items) out.new.items ≡ out.old.items) }
{
    let text = String::from_utf8_lossy(*out.allocator(), value)?;
    write_escaped(out, text.as_bytes())
}
