//! Reading the fields of challenges (RFC 7235, 2.1 and 4.1).
ghost use Rattle.std.specs.Prelude.{◌≡◌, ◌++◌, ◌∷◌, [], IfOk, OnOk};
ghost use Rattle.rtsp_auth.specs.Items.{field_items, fields_items, has_long, items_behind, items_in, parameter_in, parameter_item, scheme_item};

use crate::item::{Item, Parameter, scheme_of};
use crate::pieces::cut_piece;
use crate::values::read_value;
use crate::words::cut_word;
use base_syntax::{Bytes, trim};
use std::alloc::{AllocError, Global};

/// The longest field that is read or written, in bytes.
pub const MOST_FIELD_BYTES: usize = 4_096;

/// Returns whether a field is too long.
pub(crate) fn has_long(fields: &[Bytes]) -> bool
    ensures { result ≡ has_long fields.now }
{
    fields.iter().any(|field| field.len() > MOST_FIELD_BYTES)
}

/// Returns the start of a challenge whose scheme has this name.
fn scheme_item(name: &[u8]) -> Item
    ensures { result ≡ scheme_item name.now }
{
    if name.is_empty() {
        Item::Fault
    } else {
        Item::Scheme(scheme_of(name))
    }
}

/// Returns the parameter with this name, whose value is read from this text.
fn parameter_item(alloc: Global, name: &[u8], text: &[u8]) -> Result<Item, AllocError>
    ensures { IfOk result (λ item. item ≡ parameter_item name.now text.now) }
{
    if name.is_empty() {
        return Ok(Item::Fault);
    }
    match read_value(alloc, trim(text))? {
        Some(value) => Ok(Item::Parameter(Parameter {
            name: Bytes::from_slice(alloc, name)?,
            value,
        })),
        None => Ok(Item::Fault),
    }
}

/// Returns the parameter that a text is.
fn parameter_in(alloc: Global, text: &[u8]) -> Result<Item, AllocError>
    ensures { IfOk result (λ item. item ≡ parameter_in text.now) }
{
    let (name, behind) = cut_word(text);
    match behind {
        [b'=', value @ ..] => parameter_item(alloc, name, value),
        _ => Ok(Item::Fault),
    }
}

/// Adds the start of a challenge with this scheme, and the parameter that is after it.
fn push_start(
    items: &mut Vec<Item>,
    alloc: Global,
    scheme: &[u8],
    behind: &[u8],
) -> Result<(), AllocError>
    ensures { OnOk result (items.new.items ≡ items.old.items ++ (scheme_item scheme.now ∷ parameter_in behind.now ∷ [])) }
{
    items.push(scheme_item(scheme))?;
    items.push(parameter_in(alloc, behind)?)?;
    Ok(())
}

/// Adds what a piece has that begins with this word.
fn push_behind(
    items: &mut Vec<Item>,
    alloc: Global,
    word: &[u8],
    behind: &[u8],
) -> Result<(), AllocError>
    ensures { OnOk result (items.new.items ≡ items.old.items ++ items_behind word.now behind.now) }
{
    match behind {
        [] => items.push(scheme_item(word))?,
        [b'=', value @ ..] => items.push(parameter_item(alloc, word, value)?)?,
        _ => push_start(items, alloc, word, behind)?,
    }
    Ok(())
}

/// Adds what a piece of a field has.
fn push_items(items: &mut Vec<Item>, alloc: Global, piece: &[u8]) -> Result<(), AllocError>
    ensures { OnOk result (items.new.items ≡ items.old.items ++ items_in piece.now) }
{
    let text = trim(piece);
    if text.is_empty() {
        return Ok(());
    }
    let (word, behind) = cut_word(text);
    push_behind(items, alloc, word, behind)
}

/// Adds what a field has.
fn push_field(items: &mut Vec<Item>, alloc: Global, field: &[u8]) -> Result<(), AllocError>
    ensures { OnOk result (items.new.items ≡ items.old.items ++ field_items field.now) }
{
    let mut rest = Some(field);
    while let Some(text) = rest {
        let (piece, others) = cut_piece(text);
        push_items(items, alloc, piece)?;
        rest = others;
    }
    Ok(())
}

/// Returns what fields have, in their order.
pub(crate) fn read_fields(alloc: Global, fields: &[Bytes]) -> Result<Vec<Item>, AllocError>
    ensures { IfOk result (λ items. items.items ≡ fields_items fields.now) }
{
    let mut items = Vec::new(alloc);
    for field in fields {
        push_field(&mut items, alloc, field.as_slice())?;
    }
    Ok(items)
}
