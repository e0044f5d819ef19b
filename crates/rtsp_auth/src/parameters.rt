//! The parameters of a challenge: the items after its scheme, up to the next one.
ghost use Rattle.std.specs.Prelude.{◌≡◌};
ghost use Rattle.std.specs.List.{list_any};
ghost use Rattle.std.specs.Option.{option_copied};
ghost use Rattle.base_syntax.specs.Quotes.{parts};
ghost use Rattle.rtsp_auth.specs.Parameters.{algorithm_in, algorithm_of, has_fault, is_auth, is_long, is_stale, offers_auth, qop_in, value_named};

use crate::algorithm::Algorithm;
use crate::item::Item;
use base_syntax::{cut_unquoted, is_same_name, trim};

/// The longest realm, nonce and opaque of a challenge that is answered, in bytes.
pub const MOST_VALUE_BYTES: usize = 1_024;

/// Returns whether something isn't a parameter.
pub(crate) fn has_fault(items: &[Item]) -> bool
    ensures { result ≡ has_fault items.now }
{
    let mut rest = items;
    while let [item, others @ ..] = rest {
        match item {
            Item::Scheme(_) => return false,
            Item::Fault => return true,
            Item::Parameter(_) => rest = others,
        }
    }
    false
}

/// Returns the value of the first parameter with a name, in any case.
pub(crate) fn value_named<'a>(items: &'a [Item], name: &[u8]) -> Option<&'a [u8]>
    ensures { option_copied result ≡ value_named name.now items.now }
{
    let mut rest = items;
    while let [item, others @ ..] = rest {
        match item {
            Item::Scheme(_) => return None,
            Item::Parameter(parameter) => {
                if is_same_name(parameter.name.as_slice(), name) {
                    return Some(parameter.value.as_slice());
                }
            }
            Item::Fault => {}
        }
        rest = others;
    }
    None
}

/// Returns whether the value of a parameter is too long.
pub(crate) fn is_long(items: &[Item], name: &[u8]) -> bool
    ensures { result ≡ is_long name.now items.now }
{
    match value_named(items, name) {
        Some(value) => value.len() > MOST_VALUE_BYTES,
        None => false,
    }
}

/// Returns the algorithm of this name, in any case.
fn algorithm_of(name: &[u8]) -> Option<Algorithm>
    ensures { result ≡ algorithm_of name.now }
{
    if is_same_name(name, b"MD5") {
        Some(Algorithm::Md5)
    } else if is_same_name(name, b"SHA-256") {
        Some(Algorithm::Sha256)
    } else {
        None
    }
}

/// Returns the algorithm of a challenge: MD5 if it names none. `None` if it names another than MD5 and SHA-256.
pub(crate) fn algorithm_in(items: &[Item]) -> Option<Algorithm>
    ensures { result ≡ algorithm_in items.now }
{
    match value_named(items, b"algorithm") {
        Some(name) => algorithm_of(name),
        None => Some(Algorithm::Md5),
    }
}

/// Returns whether a word of `qop` is `auth`.
fn is_auth(word: &[u8]) -> bool
    ensures { result ≡ is_auth word.now }
{
    is_same_name(trim(word), b"auth")
}

/// Returns whether `auth` is among the words of `qop`.
fn offers_auth(words: &[u8]) -> bool
    ensures { result ≡ offers_auth words.now }
{
    let mut rest = Some(words);
    while let Some(text) = rest {
        let (word, others) = cut_unquoted(text, b',');
        if is_auth(word) {
            return true;
        }
        rest = others;
    }
    false
}

/// Returns whether a challenge offers `qop` with `auth`. `None` if its `qop` has no `auth`.
pub(crate) fn qop_in(items: &[Item]) -> Option<bool>
    ensures { result ≡ qop_in items.now }
{
    match value_named(items, b"qop") {
        Some(words) => { if offers_auth(words) { Some(true) } else { None } }
        None => Some(false),
    }
}

/// Returns whether the server says that the nonce was too old.
pub(crate) fn is_stale(items: &[Item]) -> bool
    ensures { result ≡ is_stale items.now }
{
    match value_named(items, b"stale") {
        Some(value) => is_same_name(value, b"true"),
        None => false,
    }
}
