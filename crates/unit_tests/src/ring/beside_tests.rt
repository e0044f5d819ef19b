//! Publishes while the ring's one seat is at hand: by the publisher, and by a feed of the publisher and the seat.
ghost use Rattle.std.specs.Prelude.{◌≡◌, ◌≤◌, IfSome};
ghost use Rattle.packet_ring.specs.Views.{seats_of};

use crate::ring::running_tests::{ROOM, packet, sent, took};
use cursor::{Account, Feed, Refused, Taken, Tap};
use packet_ring::{Publisher, Subscriber, Unpinned, new};
use std::alloc::Global;
use std::process::Abort;

/// How many packets are published to a seat that takes nothing.
const PUBLISHES: u64 = 20;

/// A ring that keeps this number of packets, with one seat, which is attached.
fn ring_of(alloc: Global, keep: usize) -> Option<(Publisher, Subscriber)>
    requires keep { (1 ≤ keep) × (keep ≤ 4095) }
    ensures one { IfSome result (λ r. seats_of r.0.ring ≡ 1) }
    ensures ring { IfSome result (λ r. r.1.ring ≡ r.0.ring) }
{
    let (publisher, mut passes) = new(alloc, keep, 1, ROOM).ok()?;
    let pass = passes.pop()?;
    Some((publisher, pass.attach()))
}

/// Publishes these bytes beside the seat, and returns the packet's number.
fn sent_beside(
    publisher: &mut Publisher,
    seat: &mut Subscriber,
    bytes: &[u8],
) -> Result<u64, Refused>
    requires one { seats_of publisher.old.ring ≡ 1 }
    requires ring { seat.old.ring ≡ publisher.old.ring }
    ensures ring { publisher.new.ring ≡ publisher.old.ring }
    ensures same { seat.new ≡ seat.old }
{
    match publisher.publish_unpinned(seat, 3, bytes) {
        Ok(receipt) => Ok(receipt.number()),
        Err(refused) => Err(refused),
    }
}

/// Returns whether each packet was published, under its number. The byte of each is its number.
fn all_are_sent(publisher: &mut Publisher, seat: &mut Subscriber) -> bool
    requires one { seats_of publisher.old.ring ≡ 1 }
    requires ring { seat.old.ring ≡ publisher.old.ring }
    ensures ring { publisher.new.ring ≡ publisher.old.ring }
    ensures same { seat.new ≡ seat.old }
{
    for number in 0..PUBLISHES {
        if sent_beside(publisher, seat, &[number as u8]) != Ok(number) {
            return false;
        }
    }
    true
}

/// A seat that has taken nothing loses all but the kept packets, and gets those, each with its number as its byte.
fn loses_all_but(rt: &impl Abort, seat: &mut Subscriber, keep: u64, count: u64) {
    let mut buf = [0; ROOM];
    let lost = count.saturating_sub(keep);
    assert!(rt; took(seat, &mut buf) == Some(Taken::Lost(lost)));
    for number in lost..count {
        assert!(rt; took(seat, &mut buf) == packet(number, 1));
        assert!(rt; u64::from(buf[0]) == number);
    }
    assert!(rt; took(seat, &mut buf) == Some(Taken::Empty));
    let wanted = Account {
        start: 0,
        taken: keep,
        lost,
    };
    assert!(rt; seat.account() == wanted);
}

/// However far the seat is behind, a packet is refused for its length alone. The seat learns of none.
#[test]
fn publishes_beside_a_seat_that_is_behind(rt: HostRuntime) {
    for keep in [1usize, 2] {
        let (mut publisher, mut seat) = ring_of(rt.alloc(), keep).expect(&rt, "no ring");
        let long = sent_beside(&mut publisher, &mut seat, &[0; ROOM + 1]);
        assert!(rt; long == Err(Refused::TooLong));
        assert!(rt; all_are_sent(&mut publisher, &mut seat));
        let long = sent_beside(&mut publisher, &mut seat, &[0; ROOM + 1]);
        assert!(rt; long == Err(Refused::TooLong));
        let last = [PUBLISHES as u8; ROOM];
        let numbers = (
            sent_beside(&mut publisher, &mut seat, &last[..1]),
            seat.known(),
        );
        assert!(rt; numbers == (Ok(PUBLISHES), 0));
        loses_all_but(&rt, &mut seat, keep as u64, PUBLISHES + 1);
    }
}

/// A packet of exactly the most bytes, and one of none, between takes.
#[test]
fn publishes_beside_a_seat_that_takes(rt: HostRuntime) {
    let (mut publisher, mut seat) = ring_of(rt.alloc(), 1).expect(&rt, "no ring");
    let full = [7; ROOM];
    let first = sent_beside(&mut publisher, &mut seat, &full);
    let second = sent_beside(&mut publisher, &mut seat, &[]);
    assert!(rt; (first, second) == (Ok(0), Ok(1)));
    let mut buf = [0; ROOM];
    assert!(rt; took(&mut seat, &mut buf) == Some(Taken::Lost(1)));
    assert!(rt; took(&mut seat, &mut buf) == packet(1, 0));
    assert!(rt; took(&mut seat, &mut buf) == Some(Taken::Empty));
    assert!(rt; sent(&mut publisher, &full) == Ok(2));
    assert!(rt; took(&mut seat, &mut buf) == packet(2, ROOM) && buf == full);
}

/// Returns whether a feed takes each packet under its number, from an empty log on, and none that is too long.
fn feeds_all<F: Feed + Drop>(mut feed: F) -> bool {
    let long = feed.publish(3, &[0; ROOM + 1]);
    for number in 0..PUBLISHES {
        if feed.publish(3, &[number as u8]) != Ok(number) {
            return false;
        }
    }
    let is_roomy = feed.packet_bytes() == ROOM;
    feed.close();
    is_roomy && long == Err(Refused::TooLong)
}

/// A feed of the publisher and the seat: the seat learns of each packet. Its close leaves the log open.
#[test]
fn publisher_and_seat_as_a_feed(rt: HostRuntime) {
    for keep in [1usize, 2] {
        let (mut publisher, mut seat) = ring_of(rt.alloc(), keep).expect(&rt, "no ring");
        let feed = Unpinned::new(&mut publisher, &mut seat);
        assert!(rt; feeds_all(feed));
        assert!(rt; seat.known() == PUBLISHES);
        assert!(rt; sent(&mut publisher, &[PUBLISHES as u8]) == Ok(PUBLISHES));
        assert!(rt; seat.known() == PUBLISHES);
        loses_all_but(&rt, &mut seat, keep as u64, PUBLISHES + 1);
    }
}
