//! The names of mounts.
ghost use Rattle.std.specs.Prelude.{◌≡◌, ◌↔◌, IsTrue, IfSome, IfNone, Option, List, ℕ, MatchBool, ◌++◌, ◌<◌, codes, length};
ghost use Rattle.std.specs.Option.{option_copied};
ghost use Rattle.mounts.specs.Names.{EndsInTrack, GoesOn, HasTrackAt, IsName, IsShortNumeral};

use base_syntax::is_numeral;

/// The most bytes that a mount's name may have.
pub const MAX_NAME: usize = 128;

/// Whether a path may be the name of a mount, as far as its length goes: 1 to `MAX_NAME` bytes.
pub fn is_name(path: &[u8]) -> bool
    ensures { MatchBool result (IsName path.now) (IsName path.now → ⊥) }
{
    !path.is_empty() && path.len() <= MAX_NAME
}

/// What a path says after a mount's name: `None` where it is neither the name nor goes on after it with a slash,
/// `Some(None)` where it is the name, and else what stands after that slash.
pub fn rest_after<'a>(path: &'a [u8], name: &[u8]) -> Option<Option<&'a [u8]>>
    ensures some { IfSome result (λ rest. GoesOn path.now name.now (option_copied rest)) }
    ensures none { IfNone result ((rest : Option (List ℕ)) → GoesOn path.now name.now rest → ⊥) }
{
    let Some(behind) = path.strip_prefix(name) else {
        return None;
    };
    if behind.is_empty() {
        return Some(None);
    }
    if behind[0] == b'/' {
        return Some(Some(&behind[1..]));
    }
    None
}

/// Whether a text is a number in decimal digits, of which the first is 0 only where it is the only one.
fn is_short_numeral(text: &[u8]) -> bool
    ensures { MatchBool result (IsShortNumeral text.now) (IsShortNumeral text.now → ⊥) }
{
    if !is_numeral(text) {
        return false;
    }
    if text[0] != b'0' {
        return true;
    }
    text.len() == 1
}

/// The digits after `trackID=`, where a text is that and a number in decimal without leading zeros.
pub(crate) fn track_digits(text: &[u8]) -> Option<&[u8]>
    ensures some { IfSome result (λ digits. IsShortNumeral digits.now × (text.now ≡ codes "trackID=" ++ digits.now)) }
    ensures none { IfNone result ((digits : List ℕ) → IsShortNumeral digits → text.now ≡ codes "trackID=" ++ digits → ⊥) }
{
    let Some(digits) = text.strip_prefix(b"trackID=") else {
        return None;
    };
    if is_short_numeral(digits) {
        Some(digits)
    } else {
        None
    }
}

/// Whether a slash stands at a place of a path, and a track's name after it.
fn has_track_at(path: &[u8], place: usize) -> bool
    requires { place < length path.now }
    ensures { MatchBool result (HasTrackAt path.now place) (HasTrackAt path.now place → ⊥) }
{
    if path[place] != b'/' {
        return false;
    }
    track_digits(&path[place + 1..]).is_some()
}

/// Whether a path ends in a slash and `trackID=` with a number after it, in decimal without leading zeros and however
/// long: as a mount's name it would be taken for a track of another.
pub fn ends_in_track(path: &[u8]) -> bool
    ensures { MatchBool result (EndsInTrack path.now) (EndsInTrack path.now → ⊥) }
{
    for place in 0..path.len() {
        if has_track_at(path, place) {
            return true;
        }
    }
    false
}
