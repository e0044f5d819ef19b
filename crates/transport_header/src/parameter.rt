//! The parameters of a spec of a Transport header (RFC 2326, 12.39).
ghost use Rattle.std.specs.Prelude.{◌≡◌, IfOk, map};
ghost use Rattle.std.specs.List.{list_any};
ghost use Rattle.std.specs.Option.{option_copied};
ghost use Rattle.base_syntax.specs.Blanks.{trimmed};
ghost use Rattle.base_syntax.specs.Quotes.{parts, rest_parts};
ghost use Rattle.transport_header.specs.Separators.{comma, semicolon};
ghost use Rattle.transport_header.specs.Transport.{protocol_of, value_named, channel_of, second_of, channels_of, asks_record, mode_of};

use crate::spec::{ChannelPair, Mode, Protocol};
use base_syntax::{cut, cut_unquoted, is_same_name, read_number, trim};
use std::alloc::{AllocError, Global};

/// The transport that a spec's first part names, in any case.
pub(crate) fn read_protocol(part: &[u8]) -> Protocol
    ensures { result ≡ protocol_of part.now }
{
    if is_same_name(part, b"RTP/AVP/TCP") {
        Protocol::Tcp
    } else {
        Protocol::Other
    }
}

/// The value of the first parameter with a name, among the parameters that a text holds.
pub(crate) fn parameter<'a>(text: Option<&'a [u8]>, name: &[u8]) -> Option<&'a [u8]>
    ensures { option_copied result ≡ value_named name.now (map trimmed (rest_parts semicolon (option_copied text.entry))) }
{
    let mut rest = text;
    while let Some(parameters) = rest {
        let (part, others) = cut_unquoted(parameters, b';');
        let (found, value) = cut(trim(part), b'=');
        if is_same_name(found, name) {
            return Some(value.unwrap_or(b"".as_slice()));
        }
        rest = others;
    }
    None
}

// The channel that decimal digits name, 0 to 255.
fn read_channel(digits: &[u8]) -> Option<u8>
    ensures { result ≡ channel_of digits.now }
{
    let channel = read_number(digits, 255)?;
    Some(channel as u8)
}

// The second channel that the value of `interleaved` asks for, after the first.
fn second_channel(digits: Option<&[u8]>, first: u8) -> Option<u8>
    ensures { result ≡ second_of (option_copied digits.entry) first }
{
    match digits {
        Some(digits) => read_channel(digits),
        None => first.checked_add(1),
    }
}

/// The channels that the value of `interleaved` asks for: `a-b`, or `a` for a and a + 1. `None` where it
/// is unreadable.
#[tactic(auto, unfolding(crate::specs::Transport::channels_of))]
pub(crate) fn read_channels(value: &[u8]) -> Option<ChannelPair>
    ensures { result ≡ channels_of value.now }
{
    let (first, second) = cut(value, b'-');
    let first = read_channel(first)?;
    let second = second_channel(second, first)?;
    Some(ChannelPair { first, second })
}

// Whether a part of `mode`'s value asks for recording.
fn is_record(part: &[u8]) -> bool
    ensures { result ≡ asks_record part.now }
{
    let word = trim(part);
    is_same_name(word, b"record") || is_same_name(word, b"receive")
}

// Whether a part of a text, cut at commas, asks for recording.
fn has_record(text: &[u8]) -> bool
    ensures { result ≡ list_any asks_record (parts comma text.now) }
{
    let mut rest = Some(text);
    while let Some(words) = rest {
        let (part, others) = cut_unquoted(words, b',');
        if is_record(part) {
            return true;
        }
        rest = others;
    }
    false
}

/// The mode that the value of `mode` asks for.
#[tactic(auto, unfolding(crate::specs::Transport::mode_of))]
pub(crate) fn read_mode(alloc: Global, value: &[u8]) -> Result<Mode, AllocError>
    ensures { IfOk result (λ mode. mode ≡ mode_of value.now) }
{
    let words: Vec<u8> = value
        .iter()
        .copied()
        .filter(|byte| *byte != b'"')
        .collect(alloc)?;
    if has_record(&words) {
        Ok(Mode::Record)
    } else {
        Ok(Mode::Play)
    }
}
