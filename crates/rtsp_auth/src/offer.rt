//! A challenge of Digest, as it is read.
ghost use Rattle.std.specs.Prelude.{◌≡◌, IfOk};
ghost use Rattle.std.specs.Option.{option_copied};
ghost use Rattle.rtsp_auth.specs.Choices.{digest_in, is_passed_over};

use crate::algorithm::Algorithm;
use crate::challenge::DigestChallenge;
use crate::item::Item;
use crate::parameters::{algorithm_in, has_fault, is_long, is_stale, qop_in, value_named};
use base_syntax::Bytes;
use std::alloc::{AllocError, Global};
use std::marker::Model;

/// A challenge of Digest that can be answered. Its texts are in the items that it was read from.
#[derive(Drop)]
pub(crate) struct Offer<'a> {
    realm: &'a [u8],
    nonce: &'a [u8],
    opaque: Option<&'a [u8]>,
    algorithm: Algorithm,
    is_named: bool,
    has_qop: bool,
    is_stale: bool,
}

impl<'a> Model for Offer<'a> {
    ghost use Rattle.std.specs.Option.{option_copied};
    ghost use Rattle.rtsp_auth.specs.declared.challenge.DigestChallenge.{DigestChallenge};

    ghost Value = { DigestChallenge };

    ghost view = { λ o. record {
      realm = o.realm.now;
      nonce = o.nonce.now;
      opaque = option_copied o.opaque;
      algorithm = o.algorithm;
      is_named = o.is_named;
      has_qop = o.has_qop;
      is_stale = o.is_stale;
    } };
}

/// Returns a copy of a text, if there is one.
fn copied(alloc: Global, text: Option<&[u8]>) -> Result<Option<Bytes>, AllocError>
    ensures { IfOk result (λ copy. copy ≡ option_copied text.entry) }
{
    match text {
        Some(text) => Ok(Some(Bytes::from_slice(alloc, text)?)),
        None => Ok(None),
    }
}

/// Returns whether a challenge of Digest is passed over, whatever else it says.
fn is_passed_over(items: &[Item]) -> bool
    ensures { result ≡ is_passed_over items.now }
{
    has_fault(items)
        || is_long(items, b"realm")
        || is_long(items, b"nonce")
        || is_long(items, b"opaque")
}

impl<'a> Offer<'a> {
    /// Returns the challenge of Digest with these parameters. `None` if it can't be answered.
    pub(crate) fn among(items: &'a [Item]) -> Option<Offer<'a>>
        ensures { result ≡ digest_in items.now }
    {
        if is_passed_over(items) {
            return None;
        }
        let realm = value_named(items, b"realm")?;
        let nonce = value_named(items, b"nonce")?;
        let algorithm = algorithm_in(items)?;
        let has_qop = qop_in(items)?;
        Some(Offer {
            realm,
            nonce,
            opaque: value_named(items, b"opaque"),
            algorithm,
            is_named: value_named(items, b"algorithm").is_some(),
            has_qop,
            is_stale: is_stale(items),
        })
    }

    /// Returns a copy of it.
    pub(crate) fn copied(&self, alloc: Global) -> Result<DigestChallenge, AllocError>
        ensures { IfOk result (λ challenge. challenge ≡ self.now) }
    {
        Ok(DigestChallenge {
            realm: Bytes::from_slice(alloc, self.realm)?,
            nonce: Bytes::from_slice(alloc, self.nonce)?,
            opaque: copied(alloc, self.opaque)?,
            algorithm: self.algorithm,
            is_named: self.is_named,
            has_qop: self.has_qop,
            is_stale: self.is_stale,
        })
    }
}
