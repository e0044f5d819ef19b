//! Ten thousand publishes to a seat that takes nothing, and to one that looks at a packet in its place meanwhile.
use crate::ring::running_tests::{ROOM, packet, sent, took};
use cursor::{Account, Lend, Refused, Taken, Tap, Visit};
use packet_ring::{Publisher, Subscriber, new};
use std::process::Abort;

/// How many packets are published to a seat.
const PUBLISHES: u64 = 10_000;

/// The first byte of the packet with this number.
fn byte_of(number: u64) -> u8 {
    (number % 251) as u8
}

/// Returns whether each packet was appended, with its number.
fn publishes_all(publisher: &mut Publisher) -> bool {
    for number in 0..PUBLISHES {
        if sent(publisher, &[byte_of(number)]) != Ok(number) {
            return false;
        }
    }
    true
}

/// Returns whether the next takes return the packets from this number on.
fn takes_from(seat: &mut Subscriber, first: u64) -> bool {
    let mut buf = [0; ROOM];
    for number in first..PUBLISHES {
        if took(seat, &mut buf) != packet(number, 1) || buf[0] != byte_of(number) {
            return false;
        }
    }
    true
}

/// A seat that has taken nothing loses all but the kept packets by its first take, and gets those.
fn loses_all_but(rt: &impl Abort, mut publisher: Publisher, mut seat: Subscriber, keep: u64) {
    let mut buf = [0; ROOM];
    let lost = PUBLISHES.saturating_sub(keep);
    assert!(rt; publishes_all(&mut publisher));
    assert!(rt; took(&mut seat, &mut buf) == Some(Taken::Lost(lost)));
    assert!(rt; takes_from(&mut seat, lost));
    assert!(rt; took(&mut seat, &mut buf) == Some(Taken::Empty));
    let wanted = Account {
        start: 0,
        taken: keep,
        lost,
    };
    assert!(rt; seat.account() == wanted);
}

#[test]
fn seat_that_takes_nothing(rt: HostRuntime) {
    for keep in [1usize, 2, 4095] {
        let (publisher, mut passes) = new(rt.alloc(), keep, 1, ROOM).expect(&rt, "memory");
        let seat = passes.pop().expect(&rt, "no pass").attach();
        loses_all_but(&rt, publisher, seat, keep as u64);
    }
}

/// What publishes return while one packet is read in a ring that keeps two: the results of the first two, and how many of the
/// later ones are refused as pinned by one seat.
#[derive(Drop, PartialEq)]
struct Answers {
    first: Result<u64, Refused>,
    second: Result<u64, Refused>,
    pinned: u64,
}

fn publish_meanwhile(publisher: &mut Publisher) -> Answers {
    let first = sent(publisher, b"B");
    let second = sent(publisher, b"C");
    let mut pinned = 0u64;
    for _ in 2..PUBLISHES {
        if sent(publisher, b"D") == Err(Refused::Pinned { pins: 1 }) {
            pinned = pinned.saturating_add(1);
        }
    }
    Answers {
        first,
        second,
        pinned,
    }
}

/// Publishes while it looks at a packet, and keeps the packet's tag, first byte and length.
#[derive(Drop)]
struct PublishingOn<'a> {
    publisher: &'a mut Publisher,
    seen: Option<(u8, u8, usize)>,
    answers: Option<Answers>,
}

impl Visit for PublishingOn<'_> {
    ghost packet_bytes = { λ _. 64 };

    ghost see_gives = { λ old packet new. Unit {0} };

    fn see(&mut self, tag: u8, bytes: &[u8]) {
        self.answers = Some(publish_meanwhile(self.publisher));
        self.seen = bytes.first().map(|first| (tag, *first, bytes.len()));
    }
}

/// Returns the result of a take that shows its packet.
fn showed(seat: &mut Subscriber, visitor: &mut PublishingOn) -> Option<Taken> {
    if seat.packet_bytes() <= ROOM {
        Some(seat.take_with(visitor))
    } else {
        None
    }
}

/// The newest packet keeps its place, with its bytes, as long as a visitor looks at it, however often that publishes.
#[test]
fn visitor_that_publishes_on(rt: HostRuntime) {
    let (mut publisher, mut passes) = new(rt.alloc(), 2, 1, ROOM).expect(&rt, "memory");
    let mut seat = passes.pop().expect(&rt, "no pass").attach();
    let mut buf = [0; ROOM];
    assert!(rt; sent(&mut publisher, b"A") == Ok(0));
    let mut visitor = PublishingOn {
        publisher: &mut publisher,
        seen: None,
        answers: None,
    };
    assert!(rt; showed(&mut seat, &mut visitor) == packet(0, 1));
    assert!(rt; visitor.seen == Some((3, b'A', 1)));
    let wanted = Answers {
        first: Ok(1),
        second: Ok(2),
        pinned: PUBLISHES - 2,
    };
    assert!(rt; visitor.answers == Some(wanted));
    assert!(rt; sent(&mut publisher, b"D") == Ok(3));
    assert!(rt; took(&mut seat, &mut buf) == Some(Taken::Lost(1)));
    assert!(rt; took(&mut seat, &mut buf) == packet(2, 1) && buf[0] == b'C');
    assert!(rt; took(&mut seat, &mut buf) == packet(3, 1) && buf[0] == b'D');
    assert!(rt; took(&mut seat, &mut buf) == Some(Taken::Empty));
}
