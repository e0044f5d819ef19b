//! Blanks at the ends of a text: spaces and tabs (RFC 2326, 15.1: white space within a line).
ghost use Rattle.std.specs.Prelude.{◌≡◌, ◌≤◌, length};
ghost use Rattle.std.specs.List.{prefix_len};
ghost use Rattle.base_syntax.specs.Blanks.{is_blank as may_be_dropped, trimmed, without_trailing_blanks};

/// Whether a byte is a space or a tab.
fn is_blank(byte: u8) -> bool
    ensures { result ≡ may_be_dropped byte }
{
    byte == b' ' || byte == b'\t'
}

/// How many blanks stand at the start of a text.
fn leading_blanks(text: &[u8]) -> usize
    ensures count { result ≡ prefix_len may_be_dropped text.now }
    ensures within { result ≤ length text.now }
{
    for (i, byte) in text.iter().enumerate() {
        if !is_blank(*byte) {
            return i;
        }
    }
    text.len()
}

/// The text without the blanks at its end.
pub fn trim_end(text: &[u8]) -> &[u8]
    ensures { result.now ≡ without_trailing_blanks text.now }
{
    let mut end = text.len();
    while end > 0 && is_blank(text[end - 1]) {
        end -= 1;
    }
    &text[..end]
}

/// The text without the blanks at both its ends.
pub fn trim(text: &[u8]) -> &[u8]
    ensures { result.now ≡ trimmed text.now }
{
    trim_end(&text[leading_blanks(text)..])
}
