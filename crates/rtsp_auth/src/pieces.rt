//! Cutting a field at its commas.
ghost use Rattle.std.specs.Prelude.{◌≡◌, ◌≤◌, ◌+◌, ◌<◌, [], ◌∷◌, length, take, drop};
ghost use Rattle.std.specs.Option.{option_copied};
ghost use Rattle.base_syntax.specs.Quotes.{rest_size};
ghost use Rattle.rtsp_auth.specs.Pieces.{pieces, rest_pieces};

use crate::place::Place;

/// Returns the length of the first piece.
fn piece_len(text: &[u8]) -> usize
    ensures within { result ≤ length text.now }
    ensures last { length text.now ≤ result → pieces text.now ≡ text.now ∷ [] }
    ensures cut { result < length text.now → pieces text.now ≡ take result text.now ∷ pieces (drop (result + 1) text.now) }
{
    let mut place = Place::Outside;
    for (i, byte) in text.iter().enumerate() {
        if place.cuts(*byte) {
            return i;
        }
        place = place.after(*byte);
    }
    text.len()
}

/// Returns the first piece, and what is after the comma that ends it.
pub(crate) fn cut_piece(text: &[u8]) -> (&[u8], Option<&[u8]>)
    ensures pieces { pieces text.now ≡ result.0.now ∷ rest_pieces (option_copied result.1) }
    ensures shorter { rest_size (option_copied result.1) ≤ length text.now }
{
    let len = piece_len(text);
    if len == text.len() {
        (text, None)
    } else {
        (&text[..len], Some(&text[len + 1..]))
    }
}
