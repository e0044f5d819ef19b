//! What one token tells another of the log.
ghost use Rattle.core.specs.Prelude.{◌≡◌, ℕ, List};
ghost use mathlib.Core.List.{IsPrefix};
ghost use base.Stored.{coded_list};
ghost use denote.Sharing.{said};
ghost use Rattle.packet_ring.specs.Lent.{BlockId, block_id_coded, reached};
ghost use Rattle.packet_ring.specs.Rule.{Holds, packet_coded};
ghost use Rattle.packet_ring.specs.Table.{IsSighted};

use crate::block::{Shared, Token};
use std::marker::{Model, PhantomData};

/// That the block's log has reached this, and begins with it from then on. It has no bytes.
pub(crate) struct Reached {
    marker: PhantomData<u64>,
    pub(crate) ghost id: { BlockId } by { block_id_coded },
    pub(crate) ghost log: { List (List ℕ) } by { coded_list packet_coded },
}

impl Model for Reached {
    ghost also_owns = { λ r. reached packet_coded r.id r.log };

    ghost also_shares = { λ r _ κ. said (reached packet_coded r.id r.log) κ };
}

impl Token {
    /// What the token has seen of the log, for others to learn.
    pub(crate) fn tell(&mut self) -> Reached
        ensures { (self.new ≡ self.old) × (result.id ≡ self.old.id) × (result.log ≡ self.old.me.seen) }
    {
        Reached {
            marker: PhantomData,
        }
    }

    /// The token knows what it knew, and what was told.
    pub(crate) fn learn(&mut self, told: &Reached)
        requires { told.now.id ≡ self.old.id }
        ensures same { (self.new.id ≡ self.old.id) × (self.new.number ≡ self.old.number) × (self.new.me.view ≡ self.old.me.view) × (self.new.me.right ≡ self.old.me.right) }
        ensures more { IsPrefix self.old.me.seen self.new.me.seen × IsPrefix told.now.log self.new.me.seen }
    {}
}

impl Shared {
    /// Compares what was told of the log with what the token's holder knows: both are of one block. Makes no atomic operation.
    pub(crate) fn compare(&self, token: &mut Token, told: &Reached)
        requires { (token.old.id ≡ self.now.id) × (told.now.id ≡ self.now.id) }
        ensures same { token.new ≡ token.old }
        ensures sighted { IsSighted (Holds self.now.id.limits) token.old.number token.old.me.view told.now.log }
    {}
}

impl Drop for Reached {
    fn drop(self) {
        let Self { marker: _ } = self;
    }
}

unsafe impl Send for Reached {}

unsafe impl Sync for Reached {}
