//! What a seat or the publisher knows of their ring's log, sent from one thread to another.
ghost use Rattle.std.specs.Prelude.{◌≡◌, IfSome};
ghost use mathlib.Core.List.{IsPrefix};

use crate::ring::running_tests::{ROOM, packet, ring_of_one, ring_of_two, took};
use cursor::{Taken, Tap};
use packet_ring::{KnownLog, Publisher, Receipt, Subscriber};
use std::thread::join;

/// What a take of a seat answers. The seat stays one of its ring.
fn took_from(seat: &mut Subscriber, buf: &mut [u8; ROOM]) -> Option<Taken>
    ensures ring { seat.new.ring ≡ seat.old.ring }
{
    if seat.packet_bytes() <= ROOM {
        Some(seat.take(buf))
    } else {
        None
    }
}

/// Publishes two packets more. What a seat and a pass knew before them was published, and still is after them.
fn publish_and_check(
    mut publisher: Publisher,
    of_seat: KnownLog,
    of_pass: KnownLog,
) -> Option<Receipt>
    requires of_seat { of_seat.ring ≡ publisher.ring }
    requires of_pass { of_pass.ring ≡ publisher.ring }
    ensures ring { IfSome result (λ last. last.ring ≡ publisher.ring) }
    ensures of_seat { IfSome result (λ last. IsPrefix of_seat.log last.log) }
    ensures of_pass { IfSome result (λ last. IsPrefix of_pass.log last.log) }
{
    publisher.has_published(&of_seat);
    publisher.has_published(&of_pass);
    let _second = publisher.publish(3, b"B").ok()?;
    let last = publisher.publish(3, b"C").ok()?;
    publisher.has_published(&of_seat);
    publisher.has_published(&of_pass);
    Some(last)
}

/// A seat that took a packet, and a pass that was told of it, give away what they know. The publisher checks it in its thread.
#[test]
fn known_logs_are_checked_in_another_thread(rt: HostRuntime) {
    let (mut publisher, first, mut pass) = ring_of_two(rt.alloc()).expect(&rt, "no ring");
    let mut seat = first.attach();
    let receipt = publisher.publish(3, b"A").expect(&rt, "refused");
    let mut buf = [0; ROOM];
    assert!(rt; took_from(&mut seat, &mut buf) == packet(0, 1) && buf[0] == b'A');
    pass.learn(&receipt);
    let of_seat = seat.known_log();
    let of_pass = pass.known_log();
    assert!(rt; (seat.known(), pass.known()) == (1, 1));
    let check = move || publish_and_check(publisher, of_seat, of_pass);
    let (last, ()) = join(&rt, check, || ());
    let last = last.expect(&rt, "refused");
    assert!(rt; last.number() == 2);
    // To give away what it knows made no load: the seat learns of the two packets by the receipt.
    assert!(rt; seat.known() == 1);
    seat.learn(&last);
    assert!(rt; seat.known() == 3);
    assert!(rt; took(&mut seat, &mut buf) == packet(1, 1) && buf[0] == b'B');
    assert!(rt; took(&mut seat, &mut buf) == packet(2, 1) && buf[0] == b'C');
    assert!(rt; took(&mut seat, &mut buf) == Some(Taken::Empty));
}

/// Publishes a packet after what is known, and returns its number. What is known was published, before and after it.
fn publish_after(publisher: &mut Publisher, known: &KnownLog, byte: u8) -> Option<u64>
    requires ring { known.now.ring ≡ publisher.old.ring }
    ensures ring { publisher.new.ring ≡ publisher.old.ring }
    ensures published { IsPrefix known.now.log publisher.new.log }
{
    publisher.has_published(known);
    let receipt = publisher.publish(3, &[byte]);
    publisher.has_published(known);
    Some(receipt.ok()?.number())
}

/// What was known of an empty log, and of one of a packet, stays known after more packets than the ring keeps.
#[test]
fn a_known_log_stays_known(rt: HostRuntime) {
    let (mut publisher, mut seat) = ring_of_one(rt.alloc()).expect(&rt, "no ring");
    let nothing = seat.known_log();
    assert!(rt; seat.known() == 0);
    assert!(rt; publish_after(&mut publisher, &nothing, b'A') == Some(0));
    let mut buf = [0; ROOM];
    assert!(rt; took_from(&mut seat, &mut buf) == packet(0, 1));
    let one = seat.known_log();
    assert!(rt; seat.known() == 1);
    assert!(rt; publish_after(&mut publisher, &one, b'B') == Some(1));
    assert!(rt; publish_after(&mut publisher, &nothing, b'C') == Some(2));
    assert!(rt; publish_after(&mut publisher, &one, b'D') == Some(3));
    publisher.has_published(&nothing);
    assert!(rt; took(&mut seat, &mut buf) == Some(Taken::Lost(1)));
    assert!(rt; took(&mut seat, &mut buf) == packet(2, 1) && buf[0] == b'C');
}

/// A seat learns of the publisher's known log and of no packet after it. A shorter one tells it nothing.
#[test]
fn a_seat_learns_a_known_log(rt: HostRuntime) {
    let (mut publisher, mut seat) = ring_of_one(rt.alloc()).expect(&rt, "no ring");
    let nothing = publisher.known_log();
    seat.learn_known(&nothing);
    assert!(rt; seat.known() == 0);
    let first = publish_after(&mut publisher, &nothing, b'A');
    let second = publish_after(&mut publisher, &nothing, b'B');
    let two = publisher.known_log();
    let third = publish_after(&mut publisher, &two, b'C');
    assert!(rt; (first, second, third) == (Some(0), Some(1), Some(2)));
    assert!(rt; seat.known() == 0);
    // No load is made: it would show the third packet, too.
    seat.learn_known(&two);
    assert!(rt; seat.known() == 2);
    let of_seat = seat.known_log();
    publisher.has_published(&of_seat);
    seat.learn_known(&publisher.known_log());
    assert!(rt; seat.known() == 3);
    seat.learn_known(&two);
    assert!(rt; seat.known() == 3);
    let mut buf = [0; ROOM];
    assert!(rt; took(&mut seat, &mut buf) == Some(Taken::Lost(1)));
    assert!(rt; took(&mut seat, &mut buf) == packet(1, 1) && buf[0] == b'B');
    assert!(rt; took(&mut seat, &mut buf) == packet(2, 1) && buf[0] == b'C');
    assert!(rt; took(&mut seat, &mut buf) == Some(Taken::Empty));
}

/// What a seat knows after it has learned, and what it takes then.
#[derive(Drop, PartialEq)]
struct Learned {
    known: u64,
    taken: Option<Taken>,
    byte: u8,
}

/// Learns of a known log, and then takes a packet.
fn learn_and_take(mut seat: Subscriber, known: KnownLog) -> Learned
    requires ring { known.ring ≡ seat.ring }
{
    seat.learn_known(&known);
    let mut buf = [0; ROOM];
    Learned {
        known: seat.known(),
        taken: took(&mut seat, &mut buf),
        byte: buf[0],
    }
}

/// What the publisher knows is learned in the thread of a seat, and the packets are there.
#[test]
fn a_known_log_is_learned_in_another_thread(rt: HostRuntime) {
    let (mut publisher, seat) = ring_of_one(rt.alloc()).expect(&rt, "no ring");
    let number = publisher.publish(3, b"A").expect(&rt, "refused").number();
    let known = publisher.known_log();
    let (learned, ()) = join(&rt, move || learn_and_take(seat, known), || ());
    let wanted = Learned {
        known: 1,
        taken: packet(0, 1),
        byte: b'A',
    };
    assert!(rt; number == 0 && learned == wanted);
}
