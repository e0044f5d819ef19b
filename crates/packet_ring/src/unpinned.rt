//! A ring's publisher and the ring's one seat as a feed.
ghost use Rattle.std.specs.Prelude.{◌≡◌};
ghost use Rattle.packet_ring.specs.Views.{packet_bytes_of, seats_of};

use crate::publishers::Publisher;
use crate::subscribers::Subscriber;
use cursor::{Feed, Refused};

/// A ring's publisher with the ring's one seat. No publish is refused as pinned, since the seat reads no packet meanwhile,
/// and the seat learns of each packet. Both are lent to it.
#[derive(Drop)]
pub struct Unpinned<'a> {
    publisher: &'a mut Publisher,
    seat: &'a mut Subscriber,
    ghost one: { seats_of publisher.now.ring ≡ 1 },
    ghost ring: { seat.now.ring ≡ publisher.now.ring },
}

impl<'a> Unpinned<'a> {
    pub fn new(publisher: &'a mut Publisher, seat: &'a mut Subscriber) -> Unpinned<'a>
        requires one { seats_of publisher.old.ring ≡ 1 }
        requires ring { seat.old.ring ≡ publisher.old.ring }
        ensures lent { (result.publisher.ghost_name ≡ publisher.entry.ghost_name) × (result.seat.ghost_name ≡ seat.entry.ghost_name) }
        ensures now { (result.publisher.now ≡ publisher.old) × (result.seat.now ≡ seat.old) }
    {
        Unpinned { publisher, seat }
    }
}

impl Feed for Unpinned<'_> {
    ghost use Rattle.std.specs.Prelude.{Some};
    ghost use Rattle.packet_ring.specs.Calls.{NeverPinned};
    ghost use Rattle.packet_ring.specs.Players.{PublishesBeside};

    ghost told = { λ f. Some f.publisher.now.log };

    ghost packet_bytes = { λ f. packet_bytes_of f.publisher.now.ring };

    ghost may_refuse = { NeverPinned };

    ghost publish_gives = { λ old packet answer new. (new.publisher.ghost_name ≡ old.publisher.ghost_name) × (new.seat.ghost_name ≡ old.seat.ghost_name)
        × PublishesBeside old.publisher.now old.seat.now packet answer new.publisher.now new.seat.now };

    /// Publishes a packet as `Publisher::publish_unpinned` does, and returns its number.
    fn publish(&mut self, tag: u8, bytes: &[u8]) -> Result<u64, Refused> {
        match self.publisher.publish_unpinned(self.seat, tag, bytes) {
            Ok(receipt) => {
                self.seat.learn(&receipt);
                Ok(receipt.number())
            }
            Err(refused) => Err(refused),
        }
    }

    fn packet_bytes(&self) -> usize {
        self.publisher.packet_bytes()
    }

    /// Gives the publisher and the seat back. A publisher that is lent can't be closed, so the log stays open.
    fn close(self) {}
}
