ghost use Rattle.std.specs.Prelude.{◌≡◌, ◌≤◌};
ghost use Rattle.cursor.specs.Listed.{IsCounted};

use crate::copies::Copying;
use crate::lends::Lend;
use crate::takes::{Account, Delivery, Taken};
use crate::taps::Tap;
use crate::visits::Visit;
use std::marker::Model;
use std::vec;

/// A tap that gives the answers of a list, and then `Ended` for good.
#[derive(Drop)]
pub struct ListTap {
    rest: vec::IntoIter<Delivery>,
    account: Account,
    packet_bytes: usize,
}

impl Model for ListTap {
    ghost use Rattle.std.specs.Prelude.{◌≤◌};
    ghost use Rattle.std.specs.Vec.Iter.{into_iter_items};
    ghost use Rattle.cursor.specs.Account.{cursor_of};
    ghost use Rattle.cursor.specs.Listed.{Listed, IsCounted};

    ghost Value = { Listed };

    ghost view = { λ t. record { packet_bytes = t.packet_bytes; account = t.account; rest = into_iter_items t.rest } };

    ghost invariant = { λ t. (t.packet_bytes ≤ 65535) × IsCounted t.packet_bytes (cursor_of t.account) (into_iter_items t.rest) };
}

impl ListTap {
    /// A tap at `start` that gives these answers. Each packet's number is the start and the packets and
    /// losses before it, and each packet has at most `packet_bytes` bytes.
    pub fn new(deliveries: Vec<Delivery>, start: u64, packet_bytes: usize) -> ListTap
        requires bound { packet_bytes ≤ 65535 }
        requires counted { IsCounted packet_bytes start deliveries.items }
        ensures { result ≡ record { packet_bytes = packet_bytes; account = record { start = start; taken = 0; lost = 0 }; rest = deliveries.items } }
    {
        ListTap {
            rest: deliveries.into_iter(),
            account: Account {
                start,
                taken: 0,
                lost: 0,
            },
            packet_bytes,
        }
    }
}

impl Tap for ListTap {
    ghost use Rattle.cursor.specs.Listed.{ListStep};

    ghost account = { λ t. t.account };

    ghost packet_bytes = { λ t. t.packet_bytes };

    ghost take_gives = { ListStep };

    fn take(&mut self, buf: &mut [u8]) -> Taken {
        let mut copying = Copying::new(buf);
        self.take_with(&mut copying)
    }

    fn cursor(&self) -> u64 {
        self.account.cursor()
    }

    fn account(&self) -> Account {
        self.account
    }

    fn packet_bytes(&self) -> usize {
        self.packet_bytes
    }

    ghost counts = { λ old d new h. h.account };
}

impl Lend for ListTap {
    fn take_with<V: Visit>(&mut self, visitor: &mut V) -> Taken {
        let Some(delivery) = self.rest.next() else {
            return Taken::Ended;
        };
        match delivery {
            Delivery::Got { number, packet } => {
                self.account.taken += 1;
                let bytes = packet.bytes.as_slice();
                visitor.see(packet.tag, bytes);
                Taken::Packet {
                    number,
                    tag: packet.tag,
                    len: bytes.len(),
                }
            }
            Delivery::Lost(count) => {
                self.account.lost += count;
                Taken::Lost(count)
            }
            Delivery::Empty => Taken::Empty,
            Delivery::Ended => Taken::Ended,
        }
    }
}
