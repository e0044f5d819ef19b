//! The port of an `m=` line (RFC 4566, 5.14).
ghost use Rattle.std.specs.Prelude.{◌≡◌};
ghost use Rattle.std.specs.Option.{option_copied};
ghost use Rattle.sdp.specs.Media.{is_port_number as is_one_port, is_count as is_good_count, is_port as is_good_port};

use base_syntax::{cut, is_numeral, read_number};

/// Whether a text is one to five decimal digits of a number up to 65,535.
fn is_port_number(text: &[u8]) -> bool
    ensures { result ≡ is_one_port text.now }
{
    text.len() <= 5 && read_number(text, 65535).is_some()
}

/// Whether a number of ports is one, where it is given.
fn is_count(count: Option<&[u8]>) -> bool
    ensures { result ≡ is_good_count (option_copied count.entry) }
{
    match count {
        Some(count) => is_numeral(count),
        None => true,
    }
}

/// Whether a text is a port, with a number of ports after a slash or without.
pub(crate) fn is_port(text: &[u8]) -> bool
    ensures { result ≡ is_good_port text.now }
{
    let (port, count) = cut(text, b'/');
    is_port_number(port) && is_count(count)
}
