//! What holds if a request for memory is refused. `tools/refuse-memory` runs each of these once for each request that it
//! makes, with that one refused. The run either ends out of memory before what it shows, or passes.
use crate::ring::log_tests::{pumped, tap_behind};
use crate::ring::running_tests::{ROOM, packet, ring_of_two, sent, took};
use base_syntax::Bytes;
use cursor::{Account, Packet, Refused, Taken, Tap, pump};
use interleaved::{ListSource, put_frame};
use packet_ring::{Publisher, Subscriber, new};
use rtsp_message::{Fields, Intake, Next, Reply, Status, Unit, put_reply};
use std::alloc::Global;
use std::process::Abort;

/// A ring is made whole, or what was taken for it is given back.
#[test]
fn a_ring_is_made_whole_or_not_at_all(rt: HostRuntime) {
    if let Ok((mut publisher, passes)) = new(rt.alloc(), 2, 2, ROOM) {
        assert!(rt; passes.len() == 2 && sent(&mut publisher, b"A") == Ok(0));
    }
}

/// Both seats of a ring of one packet: one takes it and leaves, and the other one sees the end.
fn seats_end(rt: &impl Abort, publisher: Publisher, mut early: Subscriber, mut late: Subscriber) {
    let mut buf = [0; ROOM];
    assert!(rt; took(&mut early, &mut buf) == packet(0, 1) && buf[0] == b'A');
    assert!(rt; took(&mut early, &mut buf) == Some(Taken::Empty));
    let (pass, left) = early.detach();
    assert!(rt; (left.taken, left.lost, left.left, pass.known()) == (1, 0, 0, 1));
    let closed = publisher.close();
    assert!(rt; closed.number() == 1 && took(&mut late, &mut buf) == Some(Taken::Ended));
}

/// No call of a ring but `new` takes memory. In a run in which the request after them is refused they return the same.
#[test]
fn a_rings_calls_take_no_memory(rt: HostRuntime) {
    let alloc = rt.alloc();
    let (mut publisher, first, second) = ring_of_two(alloc).expect(&rt, "memory");
    let mut early = first.attach();
    let receipt = publisher.publish(3, b"A").expect(&rt, "a publish");
    assert!(rt; sent(&mut publisher, &[0; ROOM + 1]) == Err(Refused::TooLong));
    let mut late = second.attach();
    early.learn(&receipt);
    assert!(rt; early.known() == 1);
    early.meet(&mut late);
    seats_end(&rt, publisher, early, late);
    // The next request, which a run may refuse.
    let _behind = Vec::from_elem(alloc, 0u8, 1).is_ok();
}

/// The bytes of the only two packets.
fn both(out: &[Packet]) -> Option<(&[u8], &[u8])> {
    match out {
        [first, second] => Some((first.bytes.as_slice(), second.bytes.as_slice())),
        _ => None,
    }
}

/// A pump that has no room for a packet left it in its tap, and goes on with it.
#[test]
fn a_pump_that_stopped_goes_on(rt: HostRuntime) {
    let alloc = rt.alloc();
    let mut tap = tap_behind(&rt, alloc, 2, &[b"A", b"B"]);
    let mut out = Vec::new(alloc);
    if let Err(stopped) = pump(alloc, &mut tap, 9, &mut out) {
        assert!(rt; out.len() as u64 == stopped.takes && tap.cursor() == stopped.takes);
        let _account = pumped(&rt, alloc, &mut tap, 9, &mut out);
    }
    let wanted = Account {
        start: 0,
        taken: 2,
        lost: 0,
    };
    assert!(rt; tap.account() == wanted);
    assert!(rt; both(out.as_slice()) == Some((b"A".as_slice(), b"B".as_slice())));
}

/// Returns the next unit, with a retry if memory is refused: the number of a request, or the channel of a frame.
fn next_at_last(intake: &mut Intake<ListSource>) -> Option<u32> {
    let next = match intake.next() {
        Next::OutOfMemory => intake.next(),
        next => next,
    };
    match next {
        Next::Unit(Unit::Message(request)) => request.cseq,
        Next::Unit(Unit::Frame(frame)) => Some(u32::from(frame.channel)),
        _ => None,
    }
}

/// An intake that was refused memory gives the same units when it is called again.
#[test]
fn an_intake_goes_on_behind_a_refusal(rt: HostRuntime) {
    let stream = b"OPTIONS * RTSP/1.0\r\nCSeq: 7\r\n\r\n$\x02\x00\x01x";
    let bytes = Vec::from_slice(rt.alloc(), stream).expect(&rt, "memory");
    let mut intake = Intake::new(rt.alloc(), ListSource::new(bytes, 5, None));
    assert!(rt; next_at_last(&mut intake) == Some(7));
    assert!(rt; next_at_last(&mut intake) == Some(2));
    assert!(rt; matches!(intake.next(), Next::End));
}

/// A frame is appended whole or not at all.
#[test]
fn a_frame_is_put_whole_or_not_at_all(rt: HostRuntime) {
    let mut out = Vec::from_slice(rt.alloc(), b"-").expect(&rt, "memory");
    if put_frame(&mut out, 2, &[0xaa, 0xbb]).is_err() {
        assert_eq!(rt; out.as_slice(), b"-".as_slice());
        put_frame(&mut out, 2, &[0xaa, 0xbb]).expect(&rt, "memory");
    }
    assert_eq!(rt; out.as_slice(), b"-$\x02\x00\x02\xaa\xbb".as_slice());
}

/// A reply without fields.
fn reply(alloc: Global) -> Reply {
    Reply {
        status: Status::Ok,
        cseq: Some(12),
        fields: Fields::none(),
        body: Bytes::new(Vec::new(alloc)),
    }
}

/// A reply is appended whole or not at all.
#[test]
fn a_reply_is_put_whole_or_not_at_all(rt: HostRuntime) {
    let mut out = Vec::from_slice(rt.alloc(), b"-").expect(&rt, "memory");
    let reply = reply(rt.alloc());
    if put_reply(&mut out, &reply).is_err() {
        assert_eq!(rt; out.as_slice(), b"-".as_slice());
        put_reply(&mut out, &reply).expect(&rt, "memory");
    }
    assert_eq!(rt;
        out.as_slice(),
        b"-RTSP/1.0 200 OK\r\nCSeq: 12\r\n\r\n".as_slice()
    );
}
