//! The publisher of a ring.
ghost use Rattle.std.specs.Prelude.{◌≡◌, ◌↔◌, ◌+◌, ◌*◌, ◌^◌, ◌<◌, ◌≤◌, true, false, length, IfOk, IfErr, IsErrOf};
ghost use mathlib.Core.List.{IsPrefix};
ghost use Rattle.std.specs.Arc.{arc_value};
ghost use Rattle.cursor.specs.declared.refusals.Refused.TheVariants.{TooLong, Worn};
ghost use Rattle.cursor.specs.Log.{packet_of};
ghost use Rattle.packet_ring.specs.Calls.{AppendsTo, NeverPinned, Refuses};
ghost use Rattle.packet_ring.specs.Views.{IsPublishing, Publishing, packet_bytes_of, publishing_of, receipted, seats_of};

use crate::allocated::Block;
use crate::block::Token;
use crate::head::close;
use crate::known_logs::KnownLog;
use crate::publishing::{publish, publish_beside};
use crate::receipts::Receipt;
use crate::subscribers::Subscriber;
use cursor::{Feed, Refused};
use std::alloc::Global;
use std::marker::Model;
use std::sync::Arc;

/// How many packets a ring can number.
const MOST_PACKETS: u64 = 1 << 46;

/// The one publisher of a ring. Where it is dropped, the log stays open and nothing comes after it.
#[derive(Drop)]
pub struct Publisher {
    pub(crate) ring: Arc<Block, Global>,
    pub(crate) token: Token,
    pub(crate) count: u64,
}

impl Model for Publisher {
    ghost Value = { Publishing };

    ghost view = { λ p. publishing_of p.token };

    ghost invariant = { λ p. IsPublishing (arc_value p.ring).shared.id p.token p.count };
}

impl Publisher {
    /// Publishes a packet, and gives a receipt with its number.
    ///
    /// A packet longer than the ring takes is refused as `TooLong`; else any packet, once 2^46 were
    /// published, as `Worn`; else one whose place is pinned by seats that read there, as `Pinned` with
    /// how many these were. Takes no memory and doesn't wait.
    pub fn publish(&mut self, tag: u8, bytes: &[u8]) -> Result<Receipt, Refused>
        ensures appended { IfOk result (λ _. AppendsTo self.old (packet_of tag bytes.now) self.new) }
        ensures receipt { IfOk result (λ r. r ≡ receipted self.new.ring self.new.log false) }
        ensures refused { IfErr result (λ refused. Refuses self.old (packet_of tag bytes.now) refused self.new) }
        ensures worn { IsErrOf result Worn ↔ ((length bytes.now ≤ packet_bytes_of self.old.ring) × (length self.old.log ≡ 2 ^ 46)) }
        ensures too_long { IsErrOf result TooLong ↔ (packet_bytes_of self.old.ring < length bytes.now) }
    {
        let block: &Block = &self.ring;
        if bytes.len() > block.packet_bytes {
            return Err(Refused::TooLong);
        }
        if self.count == MOST_PACKETS {
            return Err(Refused::Worn);
        }
        match publish(
            &block.shared,
            &mut self.token,
            block.start,
            block.keep,
            block.room,
            self.count,
            tag,
            bytes,
        ) {
            Ok(()) => {
                self.count += 1;
                Ok(Receipt {
                    told: self.token.tell(),
                    length: self.count,
                    closed: false,
                })
            }
            Err(pins) => Err(Refused::Pinned { pins }),
        }
    }

    /// Publishes a packet as `publish` does while the ring's one seat is at hand. The seat reads no packet meanwhile, so none
    /// is refused as `Pinned`. The seat stays as it is.
    pub fn publish_unpinned(
        &mut self,
        seat: &mut Subscriber,
        tag: u8,
        bytes: &[u8],
    ) -> Result<Receipt, Refused>
        requires one { seats_of self.old.ring ≡ 1 }
        requires ring { seat.old.ring ≡ self.old.ring }
        ensures appended { IfOk result (λ _. AppendsTo self.old (packet_of tag bytes.now) self.new) }
        ensures receipt { IfOk result (λ r. r ≡ receipted self.new.ring self.new.log false) }
        ensures refused { IfErr result (λ refused. Refuses self.old (packet_of tag bytes.now) refused self.new) }
        ensures worn { IsErrOf result Worn ↔ ((length bytes.now ≤ packet_bytes_of self.old.ring) × (length self.old.log ≡ 2 ^ 46)) }
        ensures too_long { IsErrOf result TooLong ↔ (packet_bytes_of self.old.ring < length bytes.now) }
        ensures never_pinned { IfErr result NeverPinned }
        ensures same { seat.new ≡ seat.old }
    {
        let block: &Block = &self.ring;
        if bytes.len() > block.packet_bytes {
            return Err(Refused::TooLong);
        }
        if self.count == MOST_PACKETS {
            return Err(Refused::Worn);
        }
        publish_beside(
            &block.shared,
            &mut self.token,
            &mut seat.token,
            block.start,
            block.keep,
            block.room,
            self.count,
            tag,
            bytes,
        );
        self.count += 1;
        Ok(Receipt {
            told: self.token.tell(),
            length: self.count,
            closed: false,
        })
    }

    /// Shows that what a seat of this ring knows of the log was published, and that the log isn't closed. For one who holds
    /// the publisher and was handed what a seat knows. Makes no atomic operation.
    pub fn has_published(&mut self, known: &KnownLog)
        requires ring { known.now.ring ≡ self.old.ring }
        ensures same { self.new ≡ self.old }
        ensures published { IsPrefix known.now.log self.old.log }
        ensures open { known.now.closed ≡ false }
    {
        let block: &Block = &self.ring;
        block.shared.compare(&mut self.token, &known.told);
    }

    /// The log, which a seat of this ring may learn. Makes no atomic operation and takes no memory.
    pub fn known_log(&mut self) -> KnownLog
        ensures same { self.new ≡ self.old }
        ensures known { result ≡ record { ring = self.old.ring; log = self.old.log; closed = false } }
    {
        let told = self.token.tell();
        let block: &Block = &self.ring;
        block.shared.compare(&mut self.token, &told);
        KnownLog {
            told,
            length: self.count,
        }
    }

    /// Closes the log, and gives a receipt of it.
    pub fn close(self) -> Receipt
        ensures receipt { result ≡ receipted self.ring self.log true }
    {
        let Publisher {
            ring,
            mut token,
            count,
        } = self;
        let block: &Block = &ring;
        close(&block.shared, &mut token, count);
        Receipt {
            told: token.tell(),
            length: count,
            closed: true,
        }
    }
}

impl Feed for Publisher {
    ghost use Rattle.std.specs.Prelude.{Some};
    ghost use Rattle.packet_ring.specs.Calls.{PublishesNext, RingMayRefuse};

    ghost told = { λ p. Some p.log };

    ghost packet_bytes = { λ p. packet_bytes_of p.ring };

    ghost may_refuse = { RingMayRefuse };

    ghost publish_gives = { PublishesNext };

    /// Publishes a packet as the inherent call does, and answers its number.
    fn publish(&mut self, tag: u8, bytes: &[u8]) -> Result<u64, Refused> {
        match Publisher::publish(self, tag, bytes) {
            Ok(receipt) => Ok(receipt.number()),
            Err(refused) => Err(refused),
        }
    }

    fn packet_bytes(&self) -> usize {
        let block: &Block = &self.ring;
        block.packet_bytes
    }

    /// Closes the log as the inherent call does, and drops the receipt.
    fn close(self) {
        let _receipt = Publisher::close(self);
    }
}
