//! Words of a line, and the spaces between them.
ghost use Rattle.std.specs.Prelude.{◌≡◌, ◌≤◌, ◌<◌, ◌∷◌, ◌==◌, [], false, length, drop, slice_index, IfSome, IfNone, IfOk};
ghost use Rattle.sdp.specs.Media.{words};

use base_syntax::{Bytes, Items, cut};
use std::alloc::{AllocError, Global};

/// How many spaces the text begins with.
fn leading_spaces(text: &[u8]) -> usize
    ensures within { result ≤ length text.now }
    ensures same { words (drop result text.now) ≡ words text.now }
    ensures stops { result < length text.now → (slice_index text.now result == 32) ≡ false }
{
    for (i, byte) in text.iter().enumerate() {
        if *byte != b' ' {
            return i;
        }
    }
    text.len()
}

/// The first word of a text, and what follows it.
pub(crate) fn next_word(text: &[u8]) -> Option<(&[u8], &[u8])>
    ensures some { IfSome result (λ r. words text.now ≡ r.0.now ∷ words r.1.now) }
    ensures shorter { IfSome result (λ r. length r.1.now < length text.now) }
    ensures none { IfNone result (words text.now ≡ []) }
{
    let (_, text) = text.split_at(leading_spaces(text));
    if text.is_empty() {
        return None;
    }
    let (word, rest) = cut(text, b' ');
    Some((word, rest.unwrap_or(b"".as_slice())))
}

/// The words of a text.
pub(crate) fn read_words(alloc: Global, text: &[u8]) -> Result<Items<Bytes>, AllocError>
    ensures { IfOk result (λ list. list ≡ words text.now) }
{
    let mut list = Items::empty(alloc);
    let mut rest = text;
    while let Some((word, after)) = next_word(rest) {
        list.push(Bytes::from_slice(alloc, word)?)?;
        rest = after;
    }
    Ok(list)
}
