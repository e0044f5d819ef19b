//! What a talk publishes, as a second connection of its book takes it from the ring.
ghost use Rattle.std.specs.Prelude.{◌≡◌, true};
ghost use Rattle.session_state.specs.Lookups.{is_open};

use crate::talk::devices::{Host, made_host};
use base_syntax::Items;
use cursor::{Taken, Tap};
use interleaved::ListSource;
use packet_ring::{Pass, Subscriber};
use publisher::InStop;
use relay_talk::Talker;
use rtsp_message::{Intake, Next, Request, Unit};
use session_state::Given;
use std::alloc::Global;
use std::test::Fail;

const ANNOUNCED: &[u8] =
    b"ANNOUNCE rtsp://h/a RTSP/1.0\nCSeq: 1\nContent-Length: 26\n\nv=0\nm=audio 0 RTP/AVP 0  \nSETUP rtsp://h/a/trackID=0 RTSP/1.0\nCSeq: 2\nTransport: RTP/AVP/TCP;interleaved=4-5;mode=record\n\n";

/// A frame is numbered by its last byte. The first comes before RECORD, the second and the fourth while the session
/// records, the third while it pauses, and the fifth on a channel of no track. The ANNOUNCE is refused.
const RECORDED: &[u8] =
    b"$\x04\x00\x0c\x80\x00\x00\x00\x00\x00\x00\x00\x00\x00\x00\x01RECORD rtsp://h/a RTSP/1.0\nCSeq: 3\nSession: 000000010000abcd\n\n$\x04\x00\x0c\x80\x00\x00\x00\x00\x00\x00\x00\x00\x00\x00\x02PAUSE rtsp://h/a RTSP/1.0\nCSeq: 4\nSession: 000000010000abcd\n\n$\x04\x00\x0c\x80\x00\x00\x00\x00\x00\x00\x00\x00\x00\x00\x03ANNOUNCE rtsp://h/b RTSP/1.0\nCSeq: 5\nContent-Length: 26\n\nv=0\nm=audio 0 RTP/AVP 0  \nRECORD rtsp://h/a RTSP/1.0\nCSeq: 6\nSession: 000000010000abcd\n\n$\x05\x00\x01\x04$\x06\x00\x01\x05";

/// The player's requests.
const PLAYED: &[u8] =
    b"SETUP rtsp://h/a/trackID=0 RTSP/1.0\nCSeq: 1\nTransport: RTP/AVP/TCP;interleaved=0-1\n\nPLAY rtsp://h/a RTSP/1.0\nCSeq: 2\nSession: 000000020000abcd\n\n";

/// Returns whether a request is answered with 200.
fn is_accepted(talker: &mut Talker, request: &Request) -> bool
    requires open { is_open 1 talker.old.book.history ≡ true }
    requires seats { talker.old.book.seats ≡ 1 }
    ensures { talker.new.book.seats ≡ 1 }
{
    match talker.reply_bytes(0xabcd, 0, request) {
        Some(text) => text.starts_with(b"RTSP/1.0 200 "),
        None => false,
    }
}

/// Answers all that comes, and returns how many requests were accepted.
fn count_accepted(talker: &mut Talker, intake: &mut Intake<ListSource>) -> Result<u64, Fail>
    requires { talker.old.book.seats ≡ 1 }
    ensures { talker.new.book.seats ≡ 1 }
{
    let mut count = 0u64;
    for _ in 0..8 {
        if !talker.book.is_open(1) {
            return Err(Fail::from("the connection is open"));
        }
        let InStop::Message(request) = talker.next_message(intake) else {
            return Ok(count);
        };
        if is_accepted(talker, &request) {
            count = count.saturating_add(1);
        }
    }
    Err(Fail::from("no more than seven requests"))
}

/// Answers all that is sent, and returns how many requests were accepted.
fn accepted(talker: &mut Talker, alloc: Global, sent: &[u8]) -> Result<u64, Fail>
    requires { talker.old.book.seats ≡ 1 }
    ensures { talker.new.book.seats ≡ 1 }
{
    let source = ListSource::new(Vec::from_slice(alloc, sent)?, 7, None);
    let mut intake = Intake::new(alloc, source);
    count_accepted(talker, &mut intake)
}

/// The pass that a request of the second connection is handed.
fn handed_pass(talker: &mut Talker, alloc: Global, request: &Request) -> Result<Option<Pass>, Fail>
    requires { talker.old.book.seats ≡ 1 }
    ensures { talker.new.book.seats ≡ 1 }
{
    let given = Given {
        word: 0xabcd,
        points: Items::empty(alloc),
        now: 0,
    };
    match talker.book.ask(2, request, &given, None) {
        Ok(answer) => Ok(answer.pass.flatten()),
        Err(_) => Err(Fail::from("it is answered")),
    }
}

/// The pass that the next request of the second connection is handed.
fn next_pass(
    talker: &mut Talker,
    alloc: Global,
    intake: &mut Intake<ListSource>,
) -> Result<Option<Pass>, Fail>
    requires { talker.old.book.seats ≡ 1 }
    ensures { talker.new.book.seats ≡ 1 }
{
    match intake.next() {
        Next::Unit(Unit::Message(request)) => handed_pass(talker, alloc, &request),
        _ => Err(Fail::from("two requests")),
    }
}

/// The pass of the seat that a second connection plays from.
fn played(talker: &mut Talker, alloc: Global) -> Result<Option<Pass>, Fail>
    requires { talker.old.book.seats ≡ 1 }
    ensures { talker.new.book.seats ≡ 1 }
{
    let source = ListSource::new(Vec::from_slice(alloc, PLAYED)?, 100, None);
    let mut intake = Intake::new(alloc, source);
    match next_pass(talker, alloc, &mut intake) {
        Ok(None) => next_pass(talker, alloc, &mut intake),
        early => early,
    }
}

/// The seat of a second connection, which plays the mount.
fn joined(talker: &mut Talker, alloc: Global) -> Result<Subscriber, Fail>
    requires { talker.old.book.seats ≡ 1 }
    ensures { talker.new.book.seats ≡ 1 }
{
    if talker.book.connect() != Ok(2) {
        return Err(Fail::from("it comes second"));
    }
    match played(talker, alloc)? {
        Some(pass) => Ok(pass.attach()),
        None => Err(Fail::from("it gets a seat")),
    }
}

/// Adds the tag and the last byte of the next packet, or a full stop if more may come. Returns whether there was a packet.
fn take_next(alloc: Global, seat: &mut Subscriber, bytes: &mut Vec<u8>) -> Result<bool, Fail> {
    let mut buf = Vec::from_elem(alloc, 0, seat.packet_bytes())?;
    match seat.take(buf.as_mut_slice()) {
        Taken::Packet { tag, len, .. } => {
            let last = buf.get(len.saturating_sub(1)).copied().unwrap_or(0);
            bytes.extend_from_slice(&[tag, last])?;
            Ok(true)
        }
        Taken::Empty => {
            bytes.push(b'.')?;
            Ok(false)
        }
        Taken::Ended | Taken::Lost(_) => Ok(false),
    }
}

/// Returns the tag and the last byte of each packet that there is, and a full stop if more may come.
fn taken(alloc: Global, seat: &mut Subscriber) -> Result<Vec<u8>, Fail> {
    let mut bytes = Vec::new(alloc);
    for _ in 0..8 {
        if !take_next(alloc, seat, &mut bytes)? {
            break;
        }
    }
    Ok(bytes)
}

/// Returns whether a seat takes what comes while the session records, and nothing after the connection's end.
fn are_taken(talker: &mut Talker, alloc: Global, seat: &mut Subscriber) -> Result<bool, Fail>
    requires { talker.old.book.seats ≡ 1 }
{
    let recorded = accepted(talker, alloc, RECORDED)?;
    let live = taken(alloc, seat)?;
    if !talker.book.is_open(1) {
        return Ok(false);
    }
    talker.leave();
    let rest = taken(alloc, seat)?;
    Ok(recorded == 3 && live.as_slice() == [0, 2, 1, 4, b'.'].as_slice() && rest.is_empty())
}

/// Whether what is announced and recorded is published.
fn publishes(talker: &mut Talker, alloc: Global) -> Result<bool, Fail>
    requires { talker.old.book.seats ≡ 1 }
{
    let announced = accepted(talker, alloc, ANNOUNCED)?;
    let mut seat = joined(talker, alloc)?;
    let are_taken = are_taken(talker, alloc, &mut seat)?;
    Ok(announced == 2 && are_taken)
}

/// Whether a connection comes, and what it records is published.
fn comes_and_publishes(host: Host) -> Result<bool, Fail> {
    match Talker::connect(host.alloc, host.hasher) {
        Ok(mut talker) => publishes(&mut talker, host.alloc),
        Err(_) => Ok(false),
    }
}

#[test]
fn frames_are_published_while_the_session_records(rt: HostRuntime) -> Result<(), Fail> {
    assert!(rt; comes_and_publishes(made_host(&rt, 0)?)?);
    Ok(())
}
