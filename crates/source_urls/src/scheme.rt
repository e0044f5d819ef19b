//! The scheme of an absolute URI (RFC 3986, 3.1).
ghost use Rattle.std.specs.Prelude.{◌≡◌};
ghost use Rattle.std.specs.List.{list_all};
ghost use Rattle.std.specs.Option.{option_copied};
ghost use Rattle.source_urls.specs.Scheme as spec;

use crate::parts::has_scheme;
use base_syntax::cut;

/// Returns true for a byte that a scheme can have behind its first one.
fn is_scheme_byte(byte: u8) -> bool
    ensures { result ≡ spec.is_scheme_byte byte }
{
    byte.is_ascii_alphanumeric() || byte == b'+' || byte == b'-' || byte == b'.'
}

/// Returns true if a scheme can have each of these bytes.
fn has_scheme_bytes(text: &[u8]) -> bool
    ensures { result ≡ list_all spec.is_scheme_byte text.now }
{
    text.iter().all(|byte| is_scheme_byte(*byte))
}

/// Returns true for a scheme, of any name.
fn is_scheme(text: &[u8]) -> bool
    ensures { result ≡ spec.is_scheme text.now }
{
    match text {
        [] => false,
        [first, others @ ..] => first.is_ascii_alphabetic() && has_scheme_bytes(others),
    }
}

/// Returns true if two slashes begin what is behind a colon.
fn begins_location(behind: Option<&[u8]>) -> bool
    ensures { result ≡ spec.begins_location (option_copied behind.entry) }
{
    match behind {
        Some(behind) => behind.starts_with(b"//"),
        None => false,
    }
}

/// Returns true if a text begins with a scheme, a colon and two slashes.
fn is_absolute(text: &[u8]) -> bool
    ensures { result ≡ spec.is_absolute text.now }
{
    let (scheme, behind) = cut(text, b':');
    is_scheme(scheme) && begins_location(behind)
}

/// Returns true if a text is an absolute URI of another scheme than `rtsp`.
pub(crate) fn has_other_scheme(text: &[u8]) -> bool
    ensures { result ≡ spec.has_other_scheme text.now }
{
    !has_scheme(b"rtsp://", text) && is_absolute(text)
}
