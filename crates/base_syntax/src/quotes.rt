//! Cutting a text outside of double quotes (RFC 2326, 15.1: quoted-string).
ghost use Rattle.std.specs.Prelude.{◌≡◌, ◌≤◌, ◌+◌, ◌<◌, [], ◌∷◌, length, take, drop};
ghost use Rattle.std.specs.Option.{option_copied};
ghost use Rattle.base_syntax.specs.Quotes.{cuts, quoted_after, parts, rest_parts, rest_size};

/// Whether a byte is the separator, outside of quotes.
fn cuts_here(separator: u8, quoted: bool, byte: u8) -> bool
    ensures { result ≡ cuts separator quoted byte }
{
    !quoted && byte == separator
}

/// Whether what stands after a byte is quoted.
fn is_quoted_after(quoted: bool, byte: u8) -> bool
    ensures { result ≡ quoted_after quoted byte }
{
    if byte == b'"' { !quoted } else { quoted }
}

/// The length of the first part of a text.
fn part_len(text: &[u8], separator: u8) -> usize
    ensures within { result ≤ length text.now }
    ensures last { length text.now ≤ result → parts separator text.now ≡ text.now ∷ [] }
    ensures cut { result < length text.now → parts separator text.now ≡ take result text.now ∷ parts separator (drop (result + 1) text.now) }
{
    let mut quoted = false;
    for (i, byte) in text.iter().enumerate() {
        if cuts_here(separator, quoted, *byte) {
            return i;
        }
        quoted = is_quoted_after(quoted, *byte);
    }
    text.len()
}

/// The first part of a text that is cut outside of double quotes, and what stands after the separator that follows it. A
/// quote that isn't closed reaches to the end of the text.
pub fn cut_unquoted(text: &[u8], separator: u8) -> (&[u8], Option<&[u8]>)
    ensures parts { parts separator text.now ≡ result.0.now ∷ rest_parts separator (option_copied result.1) }
    ensures shorter { rest_size (option_copied result.1) ≤ length text.now }
{
    let len = part_len(text, separator);
    if len == text.len() {
        (text, None)
    } else {
        (&text[..len], Some(&text[len + 1..]))
    }
}
