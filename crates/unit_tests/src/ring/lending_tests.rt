//! Packets that are read from their place in the ring.
use crate::ring::running_tests::{ROOM, is_packet, packet, publish_all, sent, took};
use cursor::{Account, Lend, Refused, Taken, Tap, Visit};
use interleaved::{Failed, Sink};
use packet_ring::{Publisher, Subscriber, new};
use player::relay_out_held;
use std::process::Abort;
use std::sync::Wait;
use std::thread;
use transport_header::{ChannelPair, TrackChannels};

/// Publishes three packets while it looks at one, and keeps the results and what it saw: the tag, the first
/// byte and how many bytes there are.
#[derive(Drop)]
struct Publishing<'a> {
    publisher: &'a mut Publisher,
    seen: Option<(u8, u8, usize)>,
    answers: Option<[Result<u64, Refused>; 3]>,
}

impl Visit for Publishing<'_> {
    ghost packet_bytes = { λ _. 64 };

    ghost see_gives = { λ old packet new. Unit {0} };

    fn see(&mut self, tag: u8, bytes: &[u8]) {
        self.seen = bytes.first().map(|first| (tag, *first, bytes.len()));
        let second = sent(self.publisher, b"B");
        let third = sent(self.publisher, b"C");
        self.answers = Some([second, third, sent(self.publisher, b"D")]);
    }
}

/// Returns the result of a take that shows its packet.
fn showed(tap: &mut impl Lend, visitor: &mut Publishing) -> Option<Taken> {
    if tap.packet_bytes() <= ROOM {
        Some(tap.take_with(visitor))
    } else {
        None
    }
}

#[test]
fn lent_while_published(rt: HostRuntime) {
    let (mut publisher, mut passes) = new(rt.alloc(), 2, 1, ROOM).expect(&rt, "memory");
    let mut seat = passes.pop().expect(&rt, "no pass").attach();
    let mut buf = [0; ROOM];
    assert!(rt; sent(&mut publisher, b"A") == Ok(0));
    let mut visitor = Publishing {
        publisher: &mut publisher,
        seen: None,
        answers: None,
    };
    assert!(rt; showed(&mut seat, &mut visitor) == packet(0, 1));
    assert!(rt; visitor.seen == Some((3, b'A', 1)));
    let pinned = Err(Refused::Pinned { pins: 1 });
    assert!(rt; visitor.answers == Some([Ok(1), Ok(2), pinned]));
    assert!(rt; sent(&mut publisher, b"D") == Ok(3));
    assert!(rt; took(&mut seat, &mut buf) == Some(Taken::Lost(1)));
    assert!(rt; took(&mut seat, &mut buf) == packet(2, 1) && buf[0] == b'C');
    assert!(rt; took(&mut seat, &mut buf) == packet(3, 1) && buf[0] == b'D');
    assert!(rt; took(&mut seat, &mut buf) == Some(Taken::Empty));
}

/// Takes all that is written, publishes three packets when it is first written to, and keeps the answers.
#[derive(Drop)]
struct PublishingSink<'a> {
    publisher: &'a mut Publisher,
    answers: Option<[Result<u64, Refused>; 3]>,
}

impl Sink for PublishingSink<'_> {
    ghost use Rattle.std.specs.Prelude.{None, false};

    ghost written = { λ _. None };

    ghost failed = { λ _. false };

    fn write(&mut self, bytes: &[u8]) -> Result<usize, Failed> {
        if self.answers.is_none() {
            let second = sent(self.publisher, b"B");
            let third = sent(self.publisher, b"C");
            self.answers = Some([second, third, sent(self.publisher, b"D")]);
        }
        Ok(bytes.len())
    }

    fn has_failed(&self) -> bool {
        false
    }
}

/// A frame that is written from its packet's place in the ring holds that place meanwhile.
#[test]
fn held_while_its_frame_is_written(rt: HostRuntime) {
    let (mut publisher, mut passes) = new(rt.alloc(), 2, 1, ROOM).expect(&rt, "memory");
    let mut seat = passes.pop().expect(&rt, "no pass").attach();
    let mut channels = TrackChannels::new();
    let pair = ChannelPair {
        first: 4,
        second: 5,
    };
    // The packets are RTCP of track 1.
    if channels.may_have(1, pair) {
        channels.set(1, pair);
    }
    assert!(rt; sent(&mut publisher, b"A") == Ok(0));
    let mut sink = PublishingSink {
        publisher: &mut publisher,
        answers: None,
    };
    let report = relay_out_held(&mut seat, &mut sink, &channels, 1);
    assert!(rt; report.sent == 1);
    assert!(rt; sink.answers == Some([Ok(1), Ok(2), Err(Refused::Pinned { pins: 1 })]));
}

/// Compares packets, in their place in the ring, with what was published under their numbers.
#[derive(Drop)]
struct Comparing {
    next: u64,
    looked: u64,
    are_right: bool,
}

impl Visit for Comparing {
    ghost packet_bytes = { λ _. 64 };

    ghost see_gives = { λ old packet new. Unit {0} };

    fn see(&mut self, tag: u8, bytes: &[u8]) {
        self.looked = self.looked.saturating_add(1);
        self.are_right = self.are_right && tag == 3 && is_packet(self.next, bytes);
    }
}

/// Looks at each packet to the end, and returns the account if each had its bytes, once.
fn look_at_all(rt: &impl Wait, mut seat: Subscriber) -> Option<Account> {
    if seat.packet_bytes() > ROOM {
        return None;
    }
    let mut visitor = Comparing {
        next: seat.cursor(),
        looked: 0,
        are_right: true,
    };
    for _ in rt.forever() {
        if seat.packet_bytes() > ROOM {
            break;
        }
        match seat.take_with(&mut visitor) {
            Taken::Packet { .. } | Taken::Lost(_) => visitor.next = seat.cursor(),
            Taken::Empty => thread::yield_now(),
            Taken::Ended => break,
        }
    }
    let account = seat.account();
    if visitor.are_right && visitor.looked == account.taken {
        Some(account)
    } else {
        None
    }
}

/// A publisher and four seats that copy nothing, each in a thread of its own.
#[test]
fn five_threads_in_place(rt: HostRuntime) {
    let (publisher, passes) = new(rt.alloc(), 64, 4, ROOM).expect(&rt, "memory");
    let mut readers = Vec::new(rt.alloc());
    for pass in passes {
        let seat = pass.attach();
        let reader = thread::spawn(&rt, move || look_at_all(&rt, seat)).expect(&rt, "a thread");
        readers.push(reader).expect(&rt, "memory");
    }
    let writer = thread::spawn(&rt, move || publish_all(&rt, publisher, 100_000)).expect(
        &rt, "a thread",
    );
    // How many publishes met a reader depends on the threads.
    let _refused = writer.join(&rt);
    for reader in readers {
        let account = reader
            .join(&rt)
            .expect(&rt, "a seat looked at another packet");
        assert!(rt; account.start == 0 && account.taken > 0);
        assert!(rt; account.taken.checked_add(account.lost) == Some(100_000));
    }
}
