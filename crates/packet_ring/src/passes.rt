//! Seats of a ring that nobody reads from, and how a seat is attached.
ghost use Rattle.std.specs.Prelude.{◌≡◌, ◌⊎◌, ◌+◌, ◌*◌, ◌^◌, ◌<◌, ◌≤◌, length};
ghost use Rattle.std.specs.Arc.{arc_value};
ghost use Rattle.cursor.specs.Log.{back_from};
ghost use Rattle.ring_steps.specs.declared.views.SeatPhase.TheVariants as seating;
ghost use Rattle.packet_ring.specs.Calls.{SeesOn, head_of};
ghost use Rattle.packet_ring.specs.Views.{IsSeated, Passing, keep_of, passing_of};

use crate::allocated::Block;
use crate::block::Token;
use crate::head::attach;
use crate::known_logs::KnownLog;
use crate::learning::learn_told;
use crate::receipts::Receipt;
use crate::subscribers::Subscriber;
use cursor::Account;
use std::alloc::Global;
use std::marker::Model;
use std::sync::Arc;

/// The right to attach one seat of a ring. A pass that is dropped takes its seat out of use.
#[derive(Drop)]
pub struct Pass {
    pub(crate) ring: Arc<Block, Global>,
    pub(crate) token: Token,
    pub(crate) known: u64,
}

impl Model for Pass {
    ghost Value = { Passing };

    ghost view = { λ p. passing_of p.token p.known };

    ghost invariant = { λ p. IsSeated (arc_value p.ring).shared.id p.token seating.Out p.known };
}

impl Pass {
    /// Attaches the seat. It reads from the end of the log as this call's one load saw it.
    pub fn attach(self) -> Subscriber
        ensures ring { result.ring ≡ self.ring }
        ensures loads { (result.loads ≡ self.loads + 1) × (result.misses ≡ self.misses) }
        ensures sees { SeesOn self.seen self.closed result.seen result.closed }
        ensures found { result.found ≡ head_of result.seen result.closed }
        ensures account { result.account ≡ record { start = length result.seen; taken = 0; lost = 0 } }
    {
        self.attach_back(0)
    }

    /// Attaches the seat. It reads from `back` packets back from the end of the log as this call's one load
    /// saw it, but from none that the ring doesn't keep then, and from the first where there are fewer.
    pub fn attach_back(self, back: u64) -> Subscriber
        ensures ring { result.ring ≡ self.ring }
        ensures loads { (result.loads ≡ self.loads + 1) × (result.misses ≡ self.misses) }
        ensures sees { SeesOn self.seen self.closed result.seen result.closed }
        ensures found { result.found ≡ head_of result.seen result.closed }
        ensures account { result.account ≡ record { start = back_from (keep_of self.ring) back (length result.seen); taken = 0; lost = 0 } }
    {
        let Pass {
            ring,
            mut token,
            known: _,
        } = self;
        let block: &Block = &ring;
        let head = attach(&block.shared, &mut token, back);
        let known = head / 2;
        let account = Account::begun(block.keep as u64, back, known);
        Subscriber {
            ring,
            token,
            known,
            account,
        }
    }

    /// The seat knows of the receipt's log, too, and whether that is closed. Makes no load.
    pub fn learn(&mut self, receipt: &Receipt)
        requires ring { receipt.now.ring ≡ self.old.ring }
        ensures same { self.new ≡ record self.old { seen = self.new.seen; closed = self.new.closed } }
        ensures own { SeesOn self.old.seen self.old.closed self.new.seen self.new.closed }
        ensures told { SeesOn receipt.now.log receipt.now.closed self.new.seen self.new.closed }
        ensures one { (self.new.seen ≡ self.old.seen) ⊎ (self.new.seen ≡ receipt.now.log) }
    {
        self.known = learn_told(&mut self.token, self.known, &receipt.told, receipt.length);
    }

    /// What this seat has seen of the log or was told of, for `Publisher::has_published`. Makes no load and takes no memory.
    pub fn known_log(&mut self) -> KnownLog
        ensures same { self.new ≡ self.old }
        ensures known { result ≡ record { ring = self.old.ring; log = self.old.seen; closed = self.old.closed } }
    {
        KnownLog {
            told: self.token.tell(),
            length: self.known,
        }
    }

    /// How many packets of the log this seat has seen or was told of.
    pub fn known(&self) -> u64
        ensures known { result ≡ length self.now.seen }
    {
        self.known
    }
}
