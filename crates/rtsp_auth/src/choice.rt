//! Which challenge is answered.
ghost use Rattle.std.specs.Prelude.{◌≡◌, ◌⊎◌, true, false, Err, IfOk, IfErr, OnOk};
ghost use Rattle.rtsp_auth.specs.declared.choice_fault.ChoiceFault.TheVariants.{LongField, OutOfMemory};
ghost use Rattle.rtsp_auth.specs.Choices.{basic_at, chosen, digest_at, first_digest, has_basic};
ghost use Rattle.rtsp_auth.specs.Items.{fields_items, has_long};

use crate::challenge::Challenge;
use crate::choice_fault::ChoiceFault;
use crate::item::{Item, Scheme};
use crate::items::{has_long, read_fields};
use crate::offer::Offer;
use crate::parameters::has_fault;
use base_syntax::Bytes;
use std::alloc::{AllocError, Global};

/// Returns the challenge of Digest that starts at an item, if it can be answered.
fn digest_at<'a>(item: &Item, others: &'a [Item]) -> Option<Offer<'a>>
    ensures { result ≡ digest_at item.now others.now }
{
    match item {
        Item::Scheme(Scheme::Digest) => Offer::among(others),
        _ => None,
    }
}

/// Returns the first challenge of Digest that can be answered.
fn first_digest(items: &[Item]) -> Option<Offer<'_>>
    ensures { result ≡ first_digest items.now }
{
    let mut rest = items;
    while let [item, others @ ..] = rest {
        if let Some(offer) = digest_at(item, others) {
            return Some(offer);
        }
        rest = others;
    }
    None
}

/// Returns whether a challenge of Basic that can be answered starts at an item.
fn basic_at(item: &Item, others: &[Item]) -> bool
    ensures { result ≡ basic_at item.now others.now }
{
    match item {
        Item::Scheme(Scheme::Basic) => !has_fault(others),
        _ => false,
    }
}

/// Returns whether there is a challenge of Basic that can be answered.
fn has_basic(items: &[Item]) -> bool
    ensures { result ≡ has_basic items.now }
{
    let mut rest = items;
    while let [item, others @ ..] = rest {
        if basic_at(item, others) {
            return true;
        }
        rest = others;
    }
    false
}

/// Returns the challenge that is answered, among what fields have.
fn chosen(alloc: Global, items: &[Item]) -> Result<Option<Challenge>, AllocError>
    ensures { IfOk result (λ challenge. challenge ≡ chosen items.now) }
{
    match first_digest(items) {
        Some(offer) => Ok(Some(Challenge::Digest(offer.copied(alloc)?))),
        None => {
            if has_basic(items) {
                Ok(Some(Challenge::Basic))
            } else {
                Ok(None)
            }
        }
    }
}

/// Returns the challenge that is answered, of those that the WWW-Authenticate fields of a reply have (RFC 7235, 4.1): the first of
/// Digest that can be answered, or else Basic. `None` if none can be answered. `fields` are the values of these fields, in order.
///
/// A challenge of Digest can be answered if it has a realm and a nonce, names no algorithm, MD5 or SHA-256, and has no `qop` or one
/// with `auth`. A challenge whose realm, nonce or opaque has more than `MOST_VALUE_BYTES` is passed over, and so is one with a malformed
/// parameter: its value is no quoted string without control characters, and has no quotes and a comma, an equals sign or a control
/// character. Of several parameters with the same name the first counts.
///
/// If a field has more than `MOST_FIELD_BYTES`, the fault is `LongField`, and no other field is read in its place. The other fault is out
/// of memory.
pub fn choose(alloc: Global, fields: &[Bytes]) -> Result<Option<Challenge>, ChoiceFault>
    ensures ok { IfOk result (λ challenge. challenge ≡ chosen (fields_items fields.now)) }
    ensures short { OnOk result (has_long fields.now ≡ false) }
    ensures long { has_long fields.now ≡ true → result ≡ Err LongField }
    ensures fault { IfErr result (λ fault. (fault ≡ OutOfMemory) ⊎ ((fault ≡ LongField) × (has_long fields.now ≡ true))) }
{
    if has_long(fields) {
        return Err(ChoiceFault::LongField);
    }
    let items = read_fields(alloc, fields)?;
    Ok(chosen(alloc, &items)?)
}
