//! Texts that can be the URI of a request line.
ghost use Rattle.std.specs.Prelude.{◌≡◌};
ghost use Rattle.std.specs.List.{list_all};
ghost use Rattle.source_urls.specs.UriText.{has_uri_bytes, is_long, is_slash_last, is_uri_byte as may_be_in_uri};

/// The longest URI that is taken, in bytes.
const MAX_URI_BYTES: usize = 2_048;

/// Returns true for a byte that a URI can have in a request line: a visible character of ASCII.
fn is_uri_byte(byte: u8) -> bool
    ensures { result ≡ may_be_in_uri byte }
{
    b' ' < byte && byte < 0x7F
}

/// Returns true if a text has no control character, no blank and no byte over 0x7E.
pub(crate) fn has_uri_bytes(text: &[u8]) -> bool
    ensures { result ≡ has_uri_bytes text.now }
{
    text.iter().all(|byte| is_uri_byte(*byte))
}

/// Returns true if a text is longer than 2,048 bytes.
pub(crate) fn is_long(text: &[u8]) -> bool
    ensures { result ≡ is_long text.now }
{
    text.len() > MAX_URI_BYTES
}

/// Returns true if the last byte of a text is a slash.
pub(crate) fn is_slash_last(text: &[u8]) -> bool
    ensures { result ≡ is_slash_last text.now }
{
    !text.is_empty() && text[text.len() - 1] == b'/'
}
