//! What the Accept and Content-Type fields say (RFC 2326, 12.1 and 12.16).
ghost use Rattle.std.specs.Prelude.{◌≡◌};
ghost use Rattle.session_state.specs.Fields.{accepts_sdp as accepts, has_sdp as has_type, is_sdp as is_type, media_type as type_in};

use base_syntax::{cut, is_same_name, trim};

/// A media type without its parameters.
fn media_type(text: &[u8]) -> &[u8]
    ensures { result.now ≡ type_in text.now }
{
    trim(cut(text, b';').0)
}

/// Whether a media type is that of descriptions.
pub(crate) fn is_sdp(text: &[u8]) -> bool
    ensures { result ≡ is_type text.now }
{
    is_same_name(media_type(text), b"application/sdp")
}

/// Whether a media range has descriptions in it.
fn has_sdp(range: &[u8]) -> bool
    ensures { result ≡ has_type range.now }
{
    is_sdp(range)
        || is_same_name(media_type(range), b"application/*")
        || is_same_name(media_type(range), b"*/*")
}

/// Whether one of the media ranges of an Accept field has descriptions in it.
pub(crate) fn accepts_sdp(text: &[u8]) -> bool
    ensures { result ≡ accepts text.now }
{
    let mut rest = Some(text);
    while let Some(ranges) = rest {
        let (range, others) = cut(ranges, b',');
        if has_sdp(range) {
            return true;
        }
        rest = others;
    }
    false
}
