//! The Session header (RFC 2326, 3.4 and 12.37).
ghost use Rattle.std.specs.Prelude.{◌≡◌, ◌+◌, ◌<◌, ◌++◌, OnOk, OnErr, vec_len, vec_capacity, false};
ghost use Rattle.transport_header.specs.Session.{eight_digits, identifier_text, identifier_in, timeout_in};
ghost use Rattle.std.specs.Fmt.{digit_glyph};

use crate::parameter::parameter;
use base_syntax::{cut, cut_unquoted, read_number, trim};
use std::alloc::AllocError;

// The hexadecimal digit of a number below 16, in lower case.
fn hex_digit(value: u8) -> u8
    requires { value < 16 }
    ensures { result ≡ digit_glyph false value }
{
    if value < 10 {
        b'0' + value
    } else {
        b'a' + (value - 10)
    }
}

// The eight hexadecimal digits of a number.
fn hex_digits(value: u32) -> [u8; 8]
    ensures { result ≡ eight_digits value }
{
    [
        hex_digit((value / 0x1000_0000 % 16) as u8),
        hex_digit((value / 0x100_0000 % 16) as u8),
        hex_digit((value / 0x10_0000 % 16) as u8),
        hex_digit((value / 0x1_0000 % 16) as u8),
        hex_digit((value / 0x1000 % 16) as u8),
        hex_digit((value / 0x100 % 16) as u8),
        hex_digit((value / 0x10 % 16) as u8),
        hex_digit((value % 16) as u8),
    ]
}

/// Appends the identifier of a session: 16 lower-case hexadecimal digits, its number in the first
/// eight, its word in the last eight (RFC 2326, 3.4). Session 1 with word 0x0000abcd is
/// `000000010000abcd`.
///
/// An error comes only where room for the 16 bytes was missing and none was given; `out` is then as
/// before.
#[tactic(auto, unfolding(crate::specs::Session::identifier_text))]
pub fn put_session(out: &mut Vec<u8>, number: u32, word: u32) -> Result<(), AllocError>
    ensures text { OnOk result (out.new.items ≡ out.old.items ++ identifier_text number word) }
    ensures unchanged { OnErr result (out.new.items ≡ out.old.items) }
    ensures full { OnErr result (vec_capacity out.old < vec_len out.old + 16) }
{
    let [a, b, c, d, e, f, g, h] = hex_digits(number);
    let [i, j, k, l, m, n, o, p] = hex_digits(word);
    out.extend_from_slice(&[a, b, c, d, e, f, g, h, i, j, k, l, m, n, o, p])
}

/// The session identifier that a Session header's value holds: the text before the first `;`, without
/// the spaces and tabs at its ends (RFC 2326, 12.37). It is compared byte for byte.
#[tactic(auto, unfolding(crate::specs::Session::identifier_in))]
pub fn read_session(text: &[u8]) -> &[u8]
    ensures { result.now ≡ identifier_in text.now }
{
    trim(cut(text, b';').0)
}

/// Returns after how many seconds without a request the server ends the session, by a Session header's value: its parameter
/// `timeout`, 0 to 4294967295 (RFC 2326, 12.37). `None` if there is none, or if it is no number in that range. Of several the
/// first counts.
#[tactic(auto, unfolding(crate::specs::Session::timeout_in))]
pub fn read_session_timeout(text: &[u8]) -> Option<u32>
    ensures { result ≡ timeout_in text.now }
{
    let (_, parameters) = cut_unquoted(text, b';');
    let value = parameter(parameters, b"timeout")?;
    read_number(value, 4_294_967_295)
}
