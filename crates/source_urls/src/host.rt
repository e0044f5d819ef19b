//! The host of a URL (RFC 2326, 3.2).
ghost use Rattle.std.specs.Prelude.{◌≡◌};
ghost use Rattle.std.specs.List.{list_all};
ghost use Rattle.source_urls.specs.Host.{bare_host, inside, is_address, is_bracketed, is_host, is_literal, is_literal_byte, is_name, is_name_byte};

use crate::parts::has_bracket;

/// Returns true for a byte that the name of a host can have.
fn is_name_byte(byte: u8) -> bool
    ensures { result ≡ is_name_byte byte }
{
    byte.is_ascii_alphanumeric() || byte == b'-' || byte == b'.' || byte == b'_'
}

/// Returns true for a byte that the text of an IPv6 address can have.
fn is_literal_byte(byte: u8) -> bool
    ensures { result ≡ is_literal_byte byte }
{
    byte.is_ascii_hexdigit() || byte == b':' || byte == b'.'
}

/// Returns true if the name of a host can have each of these bytes.
fn has_name_bytes(text: &[u8]) -> bool
    ensures { result ≡ list_all is_name_byte text.now }
{
    text.iter().all(|byte| is_name_byte(*byte))
}

/// Returns true if the text of an IPv6 address can have each of these bytes.
fn has_literal_bytes(text: &[u8]) -> bool
    ensures { result ≡ list_all is_literal_byte text.now }
{
    text.iter().all(|byte| is_literal_byte(*byte))
}

/// Returns true for the name of a host, or an IPv4 address.
fn is_name(host: &[u8]) -> bool
    ensures { result ≡ is_name host.now }
{
    !host.is_empty() && has_name_bytes(host)
}

/// Returns what is between the first byte and the last.
fn inside(host: &[u8]) -> &[u8]
    ensures { result.now ≡ inside host.now }
{
    if host.len() > 2 {
        &host[1..host.len() - 1]
    } else {
        b""
    }
}

/// Returns true if a text is in brackets.
fn is_bracketed(host: &[u8]) -> bool
    ensures { result ≡ is_bracketed host.now }
{
    has_bracket(host) && host[host.len() - 1] == b']'
}

/// Returns true for an IPv6 address, by the bytes that it has: a colon is among them.
fn is_address(text: &[u8]) -> bool
    ensures { result ≡ is_address text.now }
{
    !text.is_empty() && has_literal_bytes(text) && text.contains(&b':')
}

/// Returns true for an IPv6 address in brackets, by the bytes that it has.
fn is_literal(host: &[u8]) -> bool
    ensures { result ≡ is_literal host.now }
{
    is_bracketed(host) && is_address(inside(host))
}

/// Returns true for the host of a URL: a name, an IPv4 address, or an IPv6 address in brackets.
pub(crate) fn is_host(host: &[u8]) -> bool
    ensures { result ≡ is_host host.now }
{
    is_name(host) || is_literal(host)
}

/// Returns the host without brackets.
pub(crate) fn bare_host(host: &[u8]) -> &[u8]
    ensures { result.now ≡ bare_host host.now }
{
    if has_bracket(host) {
        inside(host)
    } else {
        host
    }
}
