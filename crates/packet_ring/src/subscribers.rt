//! Seats that are attached, and read from the ring.
ghost use Rattle.std.specs.Prelude.{◌≡◌, ◌⊎◌, ◌+◌, ◌*◌, ◌^◌, ◌<◌, ◌≤◌, ℕ, length};
ghost use Rattle.std.specs.Arc.{arc_value};
ghost use Rattle.cursor.specs.Account.{counted as counted_by, cursor_of};
ghost use Rattle.cursor.specs.Visits.{answer_of};
ghost use Rattle.cursor.specs.declared.takes.Delivery.{Delivery};
ghost use Rattle.cursor.specs.declared.takes.Taken.TheVariants as answers;
ghost use Rattle.packet_ring.specs.Calls.{SeesOn, TakesNext, head_of};
ghost use Rattle.packet_ring.specs.Views.{IsSubscribed, Subscribing, packet_bytes_of, subscribing_of};

use crate::allocated::Block;
use crate::block::Token;
use crate::head::detach;
use crate::known_logs::KnownLog;
use crate::learning::learn_told;
use crate::passes::Pass;
use crate::receipts::Receipt;
use crate::taking::take_with;
use cursor::{Account, Copying, Left, Lend, Taken, Tap, Visit};
use std::alloc::Global;
use std::marker::Model;
use std::sync::Arc;

/// An attached seat of a ring. A subscriber that is dropped holds nothing, and takes its seat out of use.
#[derive(Drop)]
pub struct Subscriber {
    pub(crate) ring: Arc<Block, Global>,
    pub(crate) token: Token,
    pub(crate) known: u64,
    pub(crate) account: Account,
}

impl Model for Subscriber {
    ghost Value = { Subscribing };

    ghost view = { λ s. subscribing_of s.token s.known s.account };

    ghost invariant = { λ s. IsSubscribed (arc_value s.ring).shared.id s.token s.known s.account };
}

impl Subscriber {
    /// Detaches the seat, and tells the packets that it took, those that it lost, and those that were left
    /// in the log as this call's one load saw it.
    pub fn detach(self) -> (Pass, Left)
        ensures ring { result.0.ring ≡ self.ring }
        ensures loads { (result.0.loads ≡ self.loads + 1) × (result.0.misses ≡ self.misses) }
        ensures sees { SeesOn self.seen self.closed result.0.seen result.0.closed }
        ensures found { result.0.found ≡ head_of result.0.seen result.0.closed }
        ensures account { (result.1.taken ≡ self.account.taken) × (result.1.lost ≡ self.account.lost) }
        ensures left { cursor_of self.account + result.1.left ≡ length result.0.seen }
    {
        let Subscriber {
            ring,
            mut token,
            known: _,
            account,
        } = self;
        let block: &Block = &ring;
        let head = detach(&block.shared, &mut token);
        let known = head / 2;
        let left = Left {
            taken: account.taken,
            lost: account.lost,
            left: known - account.cursor(),
        };
        (Pass { ring, token, known }, left)
    }

    /// The seat knows of the receipt's log, too, and whether that is closed. Makes no load.
    pub fn learn(&mut self, receipt: &Receipt)
        requires ring { receipt.now.ring ≡ self.old.ring }
        ensures same { self.new ≡ record self.old { seen = self.new.seen; closed = self.new.closed } }
        ensures own { SeesOn self.old.seen self.old.closed self.new.seen self.new.closed }
        ensures told { SeesOn receipt.now.log receipt.now.closed self.new.seen self.new.closed }
        ensures one { (self.new.seen ≡ self.old.seen) ⊎ (self.new.seen ≡ receipt.now.log) }
    {
        self.known = learn_told(&mut self.token, self.known, &receipt.told, receipt.length);
    }

    /// The seat knows of this log, too, and whether that is closed. Makes no load.
    pub fn learn_known(&mut self, known: &KnownLog)
        requires ring { known.now.ring ≡ self.old.ring }
        ensures same { self.new ≡ record self.old { seen = self.new.seen; closed = self.new.closed } }
        ensures own { SeesOn self.old.seen self.old.closed self.new.seen self.new.closed }
        ensures told { SeesOn known.now.log known.now.closed self.new.seen self.new.closed }
        ensures one { (self.new.seen ≡ self.old.seen) ⊎ (self.new.seen ≡ known.now.log) }
    {
        self.known = learn_told(&mut self.token, self.known, &known.told, known.length);
    }

    /// Both seats know of what either knew of. Makes no load.
    pub fn meet(&mut self, other: &mut Subscriber)
        requires ring { other.old.ring ≡ self.old.ring }
        ensures same { self.new ≡ record self.old { seen = self.new.seen; closed = self.new.closed } }
        ensures same_other { other.new ≡ record other.old { seen = self.new.seen; closed = other.new.closed } }
        ensures own { SeesOn self.old.seen self.old.closed self.new.seen self.new.closed × SeesOn other.old.seen other.old.closed self.new.seen self.new.closed }
        ensures others { SeesOn self.old.seen self.old.closed other.new.seen other.new.closed × SeesOn other.old.seen other.old.closed other.new.seen other.new.closed }
        ensures one { (self.new.seen ≡ self.old.seen) ⊎ (self.new.seen ≡ other.old.seen) }
    {
        let mine = self.token.tell();
        other.token.learn(&mine);
        let both = other.token.tell();
        self.token.learn(&both);
        if self.known < other.known {
            self.known = other.known;
        } else {
            other.known = self.known;
        }
    }

    /// What this seat has seen of the log or was told of, for `Publisher::has_published`. Makes no load and takes no memory.
    pub fn known_log(&mut self) -> KnownLog
        ensures same { self.new ≡ self.old }
        ensures known { result ≡ record { ring = self.old.ring; log = self.old.seen; closed = self.old.closed } }
    {
        KnownLog {
            told: self.token.tell(),
            length: self.known,
        }
    }

    /// How many packets of the log this seat has seen or was told of.
    pub fn known(&self) -> u64
        ensures known { result ≡ length self.now.seen }
    {
        self.known
    }
}

impl Tap for Subscriber {
    ghost account = { λ s. s.account };

    ghost packet_bytes = { λ s. packet_bytes_of s.ring };

    ghost take_gives = { TakesNext };

    /// Takes the next packet as the log was at this call's last load. Takes no memory and doesn't wait.
    fn take(&mut self, buf: &mut [u8]) -> Taken {
        let mut copying = Copying::new(buf);
        self.take_with(&mut copying)
    }

    fn cursor(&self) -> u64 {
        self.account.cursor()
    }

    fn account(&self) -> Account {
        self.account
    }

    fn packet_bytes(&self) -> usize {
        let block: &Block = &self.ring;
        block.packet_bytes
    }

    ghost counts = { λ old d new h. h.counts };
}

impl Lend for Subscriber {
    /// Shows the next packet where it lies, as the log was at this call's last load. No publish gets the
    /// packet's place while the visitor looks, and nothing is held when the call returns. Takes no memory and
    /// doesn't wait.
    fn take_with<V: Visit>(&mut self, visitor: &mut V) -> Taken {
        let block: &Block = &self.ring;
        let (taken, known) = take_with(
            &block.shared,
            &mut self.token,
            block.keep,
            block.room,
            self.account.cursor(),
            visitor,
        );
        self.known = known;
        self.account = counted(self.account, taken);
        taken
    }
}

/// The account after a take that answered so.
fn counted(account: Account, taken: Taken) -> Account
    requires { (cursor_of account ≤ 2 ^ 46) × ((count : ℕ) → taken ≡ answers.Lost count → count ≤ 2 ^ 46) }
    ensures { (d : Delivery) → taken ≡ answer_of d → result ≡ counted_by d account }
{
    let mut after = account;
    match taken {
        Taken::Packet { .. } => after.taken += 1,
        Taken::Lost(count) => after.lost += count,
        Taken::Empty | Taken::Ended => {}
    }
    after
}
