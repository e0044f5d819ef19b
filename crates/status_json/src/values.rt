//! Texts, numbers and truths of JSON.
ghost use Rattle.std.specs.Prelude.{◌≡◌, ◌++◌, ◌<◌, decimal, length, take, OnOk, OnErr};
ghost use Rattle.std.specs.List.{flat_map};
ghost use Rattle.status_json.specs.declared.key.Key.TheVariants as keys;
ghost use Rattle.status_json.specs.Json.{addr_text, byte_text, digit_of, keyed, string_text, truth_text};

use crate::key::Key;
use itoa::Buffer;
use std::alloc::AllocError;
use std::net::SocketAddr;

/// Appends a byte of a text, escaped.
fn write_byte(out: &mut Vec<u8>, byte: u8) -> Result<(), AllocError>
    ensures text { OnOk result (out.new.items ≡ out.old.items ++ byte_text byte) }
    ensures kept { OnErr result (out.new.items ≡ out.old.items) }
{
    match byte {
        b'"' => out.extend_from_slice(b"\\\""),
        b'\\' => out.extend_from_slice(b"\\\\"),
        0..=15 => out.extend_from_slice(&[b'\\', b'u', b'0', b'0', b'0', digit(byte)]),
        16..=31 => out.extend_from_slice(&[b'\\', b'u', b'0', b'0', b'1', digit(byte - 16)]),
        _ => out.extend_from_slice(&[byte]),
    }
}

/// Returns the hexadecimal digit of a number below 16.
fn digit(number: u8) -> u8
    requires { number < 16 }
    ensures { result ≡ digit_of number }
{
    if number < 10 {
        b'0' + number
    } else {
        b'a' + (number - 10)
    }
}

/// Appends bytes of a text, escaped, or a part of them if memory is refused.
fn write_bytes(out: &mut Vec<u8>, text: &[u8]) -> Result<(), AllocError>
    ensures text { OnOk result (out.new.items ≡ out.old.items ++ flat_map byte_text text.now) }
    ensures kept { OnErr result (take (length out.old.items) out.new.items ≡ out.old.items) }
{
    for byte in text {
        write_byte(out, *byte)?;
    }
    Ok(())
}

/// Appends a quote and bytes of a text, escaped, or a part of them if memory is refused.
#[tactic(auto, unfolding(crate::specs::Json::keyed))]
fn write_opened(out: &mut Vec<u8>, text: &[u8]) -> Result<(), AllocError>
    ensures text { OnOk result (out.new.items ≡ out.old.items ++ keyed keys.Quote (flat_map byte_text text.now)) }
    ensures kept { OnErr result (take (length out.old.items) out.new.items ≡ out.old.items) }
{
    out.extend_from_slice(Key::Quote.text())?;
    write_bytes(out, text)
}

/// Appends a text in quotes, as UTF-8, or a part of it if memory is refused.
#[tactic(auto, unfolding(crate::specs::Json::string_text))]
fn write_string(out: &mut Vec<u8>, text: &[u8]) -> Result<(), AllocError>
    ensures text { OnOk result (out.new.items ≡ out.old.items ++ string_text text.now) }
    ensures kept { OnErr result (take (length out.old.items) out.new.items ≡ out.old.items) }
{
    let valid = String::from_utf8_lossy(*out.allocator(), text)?;
    write_opened(out, valid.as_bytes())?;
    out.extend_from_slice(b"\"")
}

/// Appends the text of an address in quotes, or a part of it if memory is refused.
#[tactic(auto, unfolding(crate::specs::Json::addr_text))]
fn write_quoted(out: &mut Vec<u8>, addr: SocketAddr) -> Result<(), AllocError>
    ensures text { OnOk result (out.new.items ≡ out.old.items ++ addr_text addr) }
    ensures kept { OnErr result (take (length out.old.items) out.new.items ≡ out.old.items) }
{
    let text = addr.to_string(*out.allocator())?;
    write_string(out, text.as_bytes())
}

/// Appends what is before a number, and the number, or a part of them if memory is refused.
#[tactic(auto, unfolding(crate::specs::Json::keyed))]
pub(crate) fn write_number(out: &mut Vec<u8>, key: Key, number: u64) -> Result<(), AllocError>
    ensures text { OnOk result (out.new.items ≡ out.old.items ++ keyed key (decimal number)) }
    ensures kept { OnErr result (take (length out.old.items) out.new.items ≡ out.old.items) }
{
    let mut digits = Buffer::new();
    out.extend_from_slice(key.text())?;
    out.extend_from_slice(digits.format(number).as_bytes())
}

/// Appends what is before a text, and the text in quotes, or a part of them if memory is refused.
#[tactic(auto, unfolding(crate::specs::Json::keyed))]
pub(crate) fn write_text(out: &mut Vec<u8>, key: Key, text: &[u8]) -> Result<(), AllocError>
    ensures text { OnOk result (out.new.items ≡ out.old.items ++ keyed key (string_text text.now)) }
    ensures kept { OnErr result (take (length out.old.items) out.new.items ≡ out.old.items) }
{
    out.extend_from_slice(key.text())?;
    write_string(out, text)
}

/// Appends what is before an address, and its text in quotes, or a part of them if memory is refused.
#[tactic(auto, unfolding(crate::specs::Json::keyed))]
pub(crate) fn write_addr(out: &mut Vec<u8>, key: Key, addr: SocketAddr) -> Result<(), AllocError>
    ensures text { OnOk result (out.new.items ≡ out.old.items ++ keyed key (addr_text addr)) }
    ensures kept { OnErr result (take (length out.old.items) out.new.items ≡ out.old.items) }
{
    out.extend_from_slice(key.text())?;
    write_quoted(out, addr)
}

/// Appends what is before a truth, and the truth, or a part of them if memory is refused.
#[tactic(auto, unfolding(crate::specs::Json::keyed))]
pub(crate) fn write_truth(out: &mut Vec<u8>, key: Key, is_true: bool) -> Result<(), AllocError>
    ensures text { OnOk result (out.new.items ≡ out.old.items ++ keyed key (truth_text is_true)) }
    ensures kept { OnErr result (take (length out.old.items) out.new.items ≡ out.old.items) }
{
    out.extend_from_slice(key.text())?;
    if is_true {
        out.extend_from_slice(b"true")
    } else {
        out.extend_from_slice(b"false")
    }
}
