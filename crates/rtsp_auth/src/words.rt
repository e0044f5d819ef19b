//! Tokens (RFC 7230, 3.2.6; RFC 2326, 15.1).
ghost use Rattle.std.specs.Prelude.{◌≡◌, ◌≤◌, ◌==◌, length};
ghost use Rattle.std.specs.List.{list_any, prefix_len};
ghost use Rattle.rtsp_auth.specs.Words.{behind_word, is_token_byte, token_marks, word_of};

use base_syntax::trim;

/// Returns the bytes that may be in a token beside letters and digits.
#[tactic(auto, unfolding(crate::specs::Words::token_marks))]
fn token_marks() -> &'static [u8]
    ensures { result.now ≡ token_marks }
{
    b"!#$%&'*+-.^_`|~"
}

/// Returns whether a byte is one of those.
fn is_mark(byte: u8) -> bool
    ensures { result ≡ list_any (λ mark. mark == byte) token_marks }
{
    token_marks().iter().any(|mark| *mark == byte)
}

/// Returns whether a byte may be in a token.
fn is_token_byte(byte: u8) -> bool
    ensures { result ≡ is_token_byte byte }
{
    byte.is_ascii_alphanumeric() || is_mark(byte)
}

/// Returns how many bytes at the start may be in a token.
fn word_len(text: &[u8]) -> usize
    ensures count { result ≡ prefix_len is_token_byte text.now }
    ensures within { result ≤ length text.now }
{
    for (i, byte) in text.iter().enumerate() {
        if !is_token_byte(*byte) {
            return i;
        }
    }
    text.len()
}

/// Returns the token at the start, which can be empty, and what is after it, without blanks at its ends.
pub(crate) fn cut_word(text: &[u8]) -> (&[u8], &[u8])
    ensures word { result.0.now ≡ word_of text.now }
    ensures behind { result.1.now ≡ behind_word text.now }
{
    let len = word_len(text);
    (&text[..len], trim(&text[len..]))
}
