//! What holds if a request for memory is refused, in a talk and in the book that it asks. `tools/refuse-memory` runs each
//! of these once for each request that it makes, with that one refused. The run either ends out of memory before what it
//! shows, or passes.
ghost use Rattle.std.specs.Prelude.{◌≤◌};

use crate::talk::devices::{Outcome, in_pieces, made_host, outcome_of};
use crate::talk::exchange_tests::{ANNOUNCED, CAMERA, DESCRIBED, IS_SET_UP, RECORDS};
use base_syntax::Items;
use relay_talk::TalkEnd;
use rtsp_message::{Reader, Request, Unit};
use session_lock::{Answer, AskFault, Book};
use session_state::{Act, ConnectFault, Given, Session, State};
use session_words::FixedWord;
use std::alloc::Global;
use std::collections::hash_map::RandomState;
use std::process::Abort;
use std::random::RandomSource;
use std::test::Fail;

/// The last reply if nothing more can be read, because it is out of memory.
const LAST: &[u8] = b"RTSP/1.0 503 Service Unavailable\r\n\r\n";

/// What a camera is sent: all replies, or a 503 for one that there was no memory for. The book hasn't seen that request, or
/// it has, and its act was carried out.
const TOLD: [[&[u8]; 4]; 7] = [
    [ANNOUNCED, IS_SET_UP, RECORDS, DESCRIBED],
    [
        b"RTSP/1.0 503 Service Unavailable\r\nCSeq: 2\r\n\r\n",
        b"RTSP/1.0 404 Not Found\r\nCSeq: 3\r\n\r\n",
        b"RTSP/1.0 454 Session Not Found\r\nCSeq: 4\r\n\r\n",
        b"RTSP/1.0 404 Not Found\r\nCSeq: 5\r\n\r\n",
    ],
    [
        b"RTSP/1.0 503 Service Unavailable\r\nCSeq: 2\r\n\r\n",
        IS_SET_UP,
        RECORDS,
        DESCRIBED,
    ],
    [
        ANNOUNCED,
        b"RTSP/1.0 503 Service Unavailable\r\nCSeq: 3\r\n\r\n",
        b"RTSP/1.0 454 Session Not Found\r\nCSeq: 4\r\n\r\n",
        DESCRIBED,
    ],
    [
        ANNOUNCED,
        b"RTSP/1.0 503 Service Unavailable\r\nCSeq: 3\r\n\r\n",
        RECORDS,
        DESCRIBED,
    ],
    [
        ANNOUNCED,
        IS_SET_UP,
        b"RTSP/1.0 503 Service Unavailable\r\nCSeq: 4\r\n\r\n",
        DESCRIBED,
    ],
    [
        ANNOUNCED,
        IS_SET_UP,
        RECORDS,
        b"RTSP/1.0 503 Service Unavailable\r\nCSeq: 5\r\n\r\n",
    ],
];

/// Returns whether a text is these parts, one after the other.
fn is_joined(text: &[u8], parts: &[&[u8]]) -> bool {
    let mut rest = text;
    for part in parts {
        match rest.strip_prefix(*part) {
            Some(behind) => rest = behind,
            None => return false,
        }
    }
    rest.is_empty()
}

/// Returns whether a text is the replies to some of the first messages, and the last text.
fn is_cut_off(text: &[u8]) -> bool {
    let mut rest = text;
    for reply in CAMERA.read {
        if rest == LAST {
            return true;
        }
        match rest.strip_prefix(*reply) {
            Some(behind) => rest = behind,
            None => return false,
        }
    }
    rest == LAST
}

/// Returns whether this is an outcome of a talk with at most one request for memory refused.
fn stands(outcome: &Outcome) -> bool {
    let text = outcome.written.as_slice();
    match outcome.end {
        TalkEnd::Done => TOLD.iter().any(|told| is_joined(text, told)),
        TalkEnd::OutOfMemory => is_cut_off(text),
        _ => false,
    }
}

#[test]
fn a_talk_tells_of_a_refusal_and_goes_on(rt: HostRuntime) -> Result<(), Fail> {
    let host = made_host(&rt, 0xabcd)?;
    let sent = CAMERA.sent.concat(host.alloc)?;
    let mut word = FixedWord(host.word);
    let outcome = outcome_of(host, &sent, in_pieces(50), &mut word)?;
    assert!(rt; stands(&outcome));
    Ok(())
}

/// The requests of connections 1 and 2, each answered with 200, with the act and the pass that is handed out.
const ASKED: [(u64, &[u8], Act, Option<u16>); 6] = [
    (
        1,
        b"ANNOUNCE rtsp://h/a RTSP/1.0\nCSeq: 1\nContent-Length: 26\n\nv=0\nm=audio 0 RTP/AVP 0  \n",
        Act::Open,
        None,
    ),
    (
        1,
        b"SETUP rtsp://h/a/trackID=0 RTSP/1.0\nCSeq: 2\nTransport: RTP/AVP/TCP;mode=record\n\n",
        Act::None,
        None,
    ),
    (
        1,
        b"RECORD rtsp://h/a RTSP/1.0\nCSeq: 3\nSession: 0000000100000007\n\n",
        Act::Record,
        None,
    ),
    (
        2,
        b"DESCRIBE rtsp://h/a RTSP/1.0\nCSeq: 1\n\n",
        Act::None,
        None,
    ),
    (
        2,
        b"SETUP rtsp://h/a/trackID=0 RTSP/1.0\nCSeq: 2\nTransport: RTP/AVP/TCP\n\n",
        Act::None,
        None,
    ),
    (
        2,
        b"PLAY rtsp://h/a RTSP/1.0\nCSeq: 3\nSession: 0000000200000007\n\n",
        Act::Play { mount: 1, seat: 0 },
        Some(10),
    ),
];

/// Returns the last of these units, if it is a request.
fn last_request(mut units: Vec<Unit>) -> Option<Request> {
    match units.pop() {
        Some(Unit::Message(request)) => Some(request),
        _ => None,
    }
}

/// The request that a text is.
fn request_of(rt: &impl Abort, alloc: Global, text: &[u8]) -> Request {
    let units = Reader::new(alloc).feed(text).expect(rt, "memory").units;
    last_request(units).expect(rt, "a request")
}

/// The pass that an ANNOUNCE offers.
fn offer_of(rt: &impl Abort, alloc: Global, text: &[u8]) -> Option<Vec<u16>> {
    if text.starts_with(b"ANNOUNCE") {
        Some(vec![in alloc; 10].expect(rt, "memory"))
    } else {
        None
    }
}

/// Returns the state of a session, if there is one.
fn state_of(session: Option<&Session>) -> Option<State> {
    Some(session?.state)
}

/// What is seen of a book, which a refusal leaves unchanged: how many entries it keeps, how many connections and mounts had
/// come to its base, and the sessions of connections 1 and 2.
#[derive(Clone, Copy, PartialEq, Drop)]
struct Seen {
    kept: usize,
    opened: usize,
    next_mount: u64,
    states: [Option<State>; 2],
}

/// Returns what is seen of a book. `None` if the number of its entries isn't its count of them.
fn look_at(book: &Book<u16>) -> Option<Seen> {
    let kept = book.kept();
    if book.entries().len() != kept {
        return None;
    }
    Some(Seen {
        kept,
        opened: book.base().count_open(),
        next_mount: book.base().next_mount(),
        states: [state_of(book.session_of(1)), state_of(book.session_of(2))],
    })
}

/// Returns the next connection's number, with a retry if memory is refused. `None` if the refusal changed the book.
fn comes_at_last(book: &mut Book<u16>) -> Option<u64> {
    let before = look_at(book)?;
    match book.connect() {
        Ok(conn) => Some(conn),
        Err(ConnectFault::OutOfMemory) if look_at(book) == Some(before) => book.connect().ok(),
        Err(_) => None,
    }
}

/// Returns the answer to a request, with a retry if memory is refused. `None` if the refusal changed the book or kept the
/// offer.
fn answer_at_last(
    book: &mut Book<u16>,
    alloc: Global,
    conn: u64,
    request: &Request,
    offer: Option<Vec<u16>>,
) -> Option<Answer<u16>> {
    let before = look_at(book)?;
    let is_offered = offer.is_some();
    let given = Given {
        word: 7,
        points: Items::empty(alloc),
        now: 0,
    };
    match book.ask(conn, request, &given, offer) {
        Ok(answer) => Some(answer),
        Err(AskFault::NoMemory { back }) => {
            if look_at(book) != Some(before) || back.is_some() != is_offered {
                return None;
            }
            book.ask(conn, request, &given, back).ok()
        }
        Err(_) => None,
    }
}

/// Returns whether a request is answered as in this row.
fn is_answered(
    rt: &impl Abort,
    book: &mut Book<u16>,
    alloc: Global,
    asked: &(u64, &[u8], Act, Option<u16>),
) -> bool {
    let (conn, text, act, pass) = asked;
    let request = request_of(rt, alloc, text);
    let offer = offer_of(rt, alloc, text);
    match answer_at_last(book, alloc, *conn, &request, offer) {
        Some(answer) => {
            answer.reply.status.code() == 200 && answer.act == *act && answer.pass == *pass
        }
        None => false,
    }
}

/// A book that cuts nothing off here.
const NO_CUT: usize = 4096;

/// How many connections come: more than a cutting book has room for at once, and than its world has.
const COME: u64 = 16;

/// Returns how many entries are kept after a coming or a request, by a book that cuts off `cut` or more.
fn kept_after(kept: usize, cut: usize) -> usize {
    if kept < cut {
        kept.saturating_add(1)
    } else {
        1
    }
}

/// Returns whether `COME` connections come, and each has an entry.
fn all_come(book: &mut Book<u16>, cut: usize) -> bool {
    for number in 1..=COME {
        let kept = kept_after(book.kept(), cut);
        if comes_at_last(book) != Some(number) || book.kept() != kept {
            return false;
        }
    }
    true
}

/// Returns whether all come, and the requests of two of them are answered and have entries.
fn plays(rt: &impl Abort, book: &mut Book<u16>, alloc: Global, cut: usize) -> bool {
    if !all_come(book, cut) {
        return false;
    }
    for asked in &ASKED {
        let kept = kept_after(book.kept(), cut);
        if !is_answered(rt, book, alloc, asked) || book.kept() != kept {
            return false;
        }
    }
    true
}

/// A book of one seat that cuts off `cut` entries.
fn book_of<R: RandomSource + Abort>(rt: &R, alloc: Global, cut: usize) -> Book<u16>
    requires { 1 ≤ cut }
{
    let hasher = RandomState::new(rt).expect(rt, "random bytes");
    Book::with_cut(alloc, 1, hasher, cut)
}

#[test]
fn a_refused_call_of_the_book_is_made_again(rt: HostRuntime) {
    let mut book = book_of(&rt, rt.alloc(), NO_CUT);
    assert!(rt; plays(&rt, &mut book, rt.alloc(), NO_CUT));
}

/// Each call but the first copies the world.
#[test]
fn a_refused_cut_is_made_again(rt: HostRuntime) {
    let mut book = book_of(&rt, rt.alloc(), 1);
    assert!(rt; plays(&rt, &mut book, rt.alloc(), 1));
    assert!(rt; state_of(book.base().session_of(2)) == Some(State::Ready));
}

/// Returns whether a player leaves and its seat comes back once, and then its camera leaves.
fn leave(book: &mut Book<u16>) -> bool {
    book.hangup(2) == Act::Stop { mount: 1, seat: 0 }
        && book.give_back(1, 0, 10).is_none()
        && book.give_back(1, 0, 11) == Some(11)
        && book.hangup(2) == Act::None
        && book.hangup(1) == Act::End
        && book.kept() == 25
}

/// A hang-up and the return of a seat take no memory. In a run in which the next request after them is refused they return the
/// same.
#[test]
fn who_leaves_the_book_takes_no_memory(rt: HostRuntime) {
    let mut book = book_of(&rt, rt.alloc(), NO_CUT);
    assert!(rt; plays(&rt, &mut book, rt.alloc(), NO_CUT));
    assert!(rt; leave(&mut book));
    let _next = Vec::from_elem(rt.alloc(), 0u8, 1).is_ok();
}

/// Returns whether a player's session expires, its seat comes back once, and it and its camera leave. Nothing of this cuts
/// entries off.
fn leave_uncut(book: &mut Book<u16>) -> bool {
    book.expire(2, 0, 59_999).is_none()
        && book.expire(2, 0, 60_000) == Some(Act::Stop { mount: 1, seat: 0 })
        && book.expire(2, 0, 60_000).is_none()
        && book.give_back(1, 0, 10).is_none()
        && book.give_back(1, 0, 11) == Some(11)
        && book.hangup(2) == Act::None
        && book.hangup(1) == Act::End
        && book.hangup(1) == Act::None
        && book.kept() == 5
        && state_of(book.base().session_of(2)) == Some(State::Ready)
}

/// Returns the status of connection 3's DESCRIBE of the mount that has ended.
fn status_after(rt: &impl Abort, book: &mut Book<u16>, alloc: Global) -> Option<u16> {
    let request = request_of(rt, alloc, b"DESCRIBE rtsp://h/a RTSP/1.0\nCSeq: 1\n\n");
    let answer = answer_at_last(book, alloc, 3, &request, None)?;
    Some(answer.reply.status.code())
}

/// The same holds, and also for an expiry, if each coming and request cuts. The next coming makes the request for memory after
/// them.
#[test]
fn who_leaves_between_cuts_takes_no_memory(rt: HostRuntime) {
    let mut book = book_of(&rt, rt.alloc(), 1);
    assert!(rt; plays(&rt, &mut book, rt.alloc(), 1));
    assert!(rt; leave_uncut(&mut book));
    assert!(rt; comes_at_last(&mut book) == Some(COME + 1));
    assert!(rt; book.kept() == 1 && book.base().count_open() == 14);
    assert!(rt; status_after(&rt, &mut book, rt.alloc()) == Some(404));
}
