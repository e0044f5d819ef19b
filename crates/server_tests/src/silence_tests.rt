//! Connections whose silence is checked while they are read.
use crate::connection_tests::{
    ANNOUNCE, ANNOUNCED, IN_SESSION, NO_RING, PAUSE, RECORD, SET_UP, SETUP,
};
use crate::devices::joined;
use crate::expiry_tests::{NO_SESSION, PAUSED};
use crate::lines::{lines_to, reports_an_end, verbose};
use crate::moments::Dial;
use crate::rings::{Owned, Rings};
use crate::serving::{Served, SharedRings, book_of, serve_here, shared_over};
use crate::steps::{SILENT, Step, Stepped};
use crate::words::OneWord;
use interleaved::Reading;
use packet_ring::Pass;
use relay_accounts::ConnectionEnd;
use relay_connection::{ConnectionClock, IdlePolicy, IdleReader, SharedBook};
use relay_fanout::Seat;
use relay_log::Events;
use session_state::Moments;
use std::alloc::Global;
use std::io::ErrorKind;
use std::process::Abort;
use std::random::RandomSource;
use std::sync::{Arc, Wait};
use std::thread::Threads;
use std::time::Clock;
use test_kit::{FRAME, Kept};

/// Silence is checked every two seconds, and a connection without a session is disconnected after a minute.
pub(crate) const SILENCE: IdlePolicy = IdlePolicy {
    looks: 2_000,
    idle: Some(60_000),
    silent: None,
};

/// How a connection has ended and at which moment, and what it was sent.
#[derive(Drop)]
struct Ended {
    end: ConnectionEnd,
    moment: u64,
    told: Vec<u8>,
}

/// Serves connection 1 of this book, which sends `first`, and then `then`.
fn serve_over<R, K>(
    host: R,
    rt: K,
    alloc: Global,
    book: &SharedBook<Seat<Owned<Pass>>>,
    shared: &SharedRings<OneWord>,
    first: &[Step],
    then: &[Step],
    events: Events<K>,
) -> Ended
where
    R: Wait + Clock + Abort + Copy + Drop + Send + 'static,
    K: Threads + Wait + Clock + Copy + Drop + Send + 'static,
{
    let mut clock = Dial::new(&host, alloc);
    let connection_clock = ConnectionClock::new(alloc, clock).expect(&host, "memory");
    let source = Stepped::new(&host, alloc, clock, first, then);
    let idle_reader = IdleReader::new(host, source, book, 1, &connection_clock, SILENCE).expect(
        &host, "memory",
    );
    let reading = Reading::new(idle_reader);
    let Served { outcome, told } = serve_here(
        host,
        rt,
        alloc,
        shared,
        1,
        reading,
        events,
        connection_clock,
    );
    Ended {
        end: outcome.end,
        moment: clock.now(),
        told,
    }
}

/// Serves a connection that sends `first`, and then `then`.
fn serve<R>(rt: R, alloc: Global, first: &[Step], then: &[Step]) -> Ended
where
    R: Threads + Wait + Clock + RandomSource + Abort + Copy + Drop + Send + 'static,
{
    let book = book_of(&rt, alloc, 1, 1);
    let theirs = Arc::try_clone(&book).expect(&rt, "a count of its users");
    let shared = shared_over(&rt, alloc, theirs, Rings::of(&rt, alloc, 1), OneWord);
    serve_over(rt, rt, alloc, &book, &shared, first, then, Events::none())
}

/// A camera that records.
const RECORDS: [Step; 3] = [(0, Ok(ANNOUNCE)), (0, Ok(SETUP)), (0, Ok(RECORD))];

/// What the peer sends, how the connection ends and at which moment, and what the peer is sent.
#[derive(Clone, Copy)]
struct Row {
    first: &'static [Step],
    then: &'static [Step],
    end: ConnectionEnd,
    moment: u64,
    told: &'static [&'static [u8]],
}

/// Asserts that a connection ends as in each row.
fn rows_hold<R>(rt: R, alloc: Global, rows: &[Row])
where
    R: Threads + Wait + Clock + RandomSource + Abort + Copy + Drop + Send + 'static,
{
    for (place, row) in rows.iter().enumerate() {
        let served = serve(rt, alloc, row.first, row.then);
        let told = joined(&rt, alloc, row.told);
        assert!(rt; served.end == row.end, "row {place}: {}", served.end);
        assert!(rt;
            served.moment == row.moment,
            "row {place}: {}",
            served.moment
        );
        assert!(rt; served.told.as_slice() == told.as_slice(), "row {place}");
    }
}

/// Nothing comes; and a request comes when the time is over, and finds no session.
const SILENT_CAMERAS: [Row; 2] = [
    Row {
        first: &RECORDS,
        then: &[(59_999, SILENT), (60_000, SILENT), (60_001, SILENT)],
        end: ConnectionEnd::Expired,
        moment: 60_000,
        told: &[ANNOUNCED, SET_UP, IN_SESSION],
    },
    Row {
        first: &RECORDS,
        then: &[
            (60_000, Ok(PAUSE)),
            (60_000, Ok(ANNOUNCE)),
            (60_000, SILENT),
        ],
        end: ConnectionEnd::Done,
        moment: 60_000,
        told: &[ANNOUNCED, SET_UP, IN_SESSION, NO_SESSION, ANNOUNCED],
    },
];

#[test]
fn silence_is_looked_for_before_a_read_and_not_behind_it(rt: HostRuntime) {
    rows_hold(rt, rt.alloc(), &SILENT_CAMERAS);
}

/// The second ring is refused, so that an ANNOUNCE at 40,000 is answered 503, and a PAUSE 59,999 milliseconds later in the
/// session.
#[test]
fn a_request_without_an_answer_of_the_book_is_heard(rt: HostRuntime) {
    let alloc = rt.alloc();
    let book = book_of(&rt, alloc, 1, 1);
    let theirs = Arc::try_clone(&book).expect(&rt, "a count of its users");
    let rings = Rings::refusing(&rt, alloc, 1..2);
    let shared = shared_over(&rt, alloc, theirs, rings, OneWord);
    let then = [(40_000, Ok(ANNOUNCE)), (99_999, Ok(PAUSE))];
    let served = serve_over(
        rt,
        rt,
        alloc,
        &book,
        &shared,
        &RECORDS,
        &then,
        Events::none(),
    );
    let told = joined(
        &rt,
        alloc,
        &[ANNOUNCED, SET_UP, IN_SESSION, NO_RING, PAUSED],
    );
    assert!(rt; served.end == ConnectionEnd::Done);
    assert!(rt; served.told.as_slice() == told.as_slice());
}

/// What comes when a camera's time is over, and how its connection ends: silence, and a request.
const OVER: [(Step, ConnectionEnd); 2] = [
    ((60_000, SILENT), ConnectionEnd::Expired),
    ((60_000, Ok(PAUSE)), ConnectionEnd::Done),
];

/// The mount isn't among those that are recorded when its connection has ended, and a line reports its end.
#[test]
fn an_expired_mount_is_not_recorded(rt: HostRuntime) {
    let alloc = rt.alloc();
    for (step, end) in OVER {
        let kept = Kept::new(rt, alloc).expect(&rt, "memory");
        let lines = lines_to(&rt, alloc, kept);
        let book = book_of(&rt, alloc, 1, 1);
        let theirs = Arc::try_clone(&book).expect(&rt, "a count of its users");
        let shared = shared_over(&rt, alloc, theirs, Rings::of(&rt, alloc, 1), OneWord);
        let then = [(0, Ok(FRAME)), step];
        let served = serve_over(
            rt,
            kept,
            alloc,
            &book,
            &shared,
            &RECORDS,
            &then,
            verbose(&rt, alloc, &lines),
        );
        assert!(rt; served.end == end, "{end}");
        assert!(rt; shared.recorded(&rt) == 0, "{end}");
        assert!(rt; reports_an_end(&rt, &kept, &lines), "{end}");
    }
}

/// The moment at which the last piece has come.
const LAST: u64 = 70_000;

/// Returns how a connection ends and at which moment. It sends `first`, then an opening, and then a piece each second for
/// seventy seconds.
fn ends_after<R>(
    rt: R,
    alloc: Global,
    first: &[Step],
    opening: &'static [u8],
    piece: &'static [u8],
) -> (ConnectionEnd, u64)
where
    R: Threads + Wait + Clock + RandomSource + Abort + Copy + Drop + Send + 'static,
{
    let mut then: Vec<Step> = Vec::new(alloc);
    then.push((0, Ok(opening))).expect(&rt, "memory");
    for second in 1..71u64 {
        then.push((second * 1_000, Ok(piece))).expect(&rt, "memory");
    }
    let served = serve(rt, alloc, first, then.as_slice());
    (served.end, served.moment)
}

/// The beginning of a message or frame that never comes whole, and one more piece of it: of a line, a head, a body and a frame.
/// Blank lines are no message either.
const PIECES: [(&[u8], &[u8]); 5] = [
    (b"O", b"O"),
    (b"OPTIONS * RTSP/1.0\nCSeq: 1\n", b"A: b\n"),
    (
        b"OPTIONS * RTSP/1.0\nCSeq: 1\nContent-Length: 60000\n\n",
        b"aaaaaaaaaaaaaaaa",
    ),
    (b"$\x00\xff\xff", b"aaaaaaaaaaaaaaaa"),
    (b"\r\n", b"\r\n"),
];

/// No read of them waits for long enough to end without a byte.
#[test]
fn pieces_that_never_pause_keep_nothing(rt: HostRuntime) {
    let alloc = rt.alloc();
    for (place, (opening, piece)) in PIECES.iter().enumerate() {
        let camera = ends_after(rt, alloc, &RECORDS, opening, piece);
        assert!(rt; camera == (ConnectionEnd::Expired, 60_000), "row {place}");
        let other = ends_after(rt, alloc, &[], opening, piece);
        assert!(rt; other == (ConnectionEnd::Idle, 60_000), "row {place}");
    }
}

/// A frame on the second channel of a track, and one that is longer than a packet may be.
const REPORT: &[u8] = b"$\x01\x00\x00";

const TOO_LONG: &[u8] = b"$\x01\x00\x11aaaaaaaaaaaaaaaaa";

/// A frame on a channel of no track, and one that is too short for RTP.
const STRANGER: &[u8] = b"$\x07\x00\x01\x80";

const BAD_RTP: &[u8] = b"$\x00\x00\x02\x80\x60";

/// Frames that come from a recording camera: each keeps its session, whatever becomes of it.
const FRAMES: [&[u8]; 5] = [FRAME, REPORT, TOO_LONG, STRANGER, BAD_RTP];

/// Nothing else comes.
#[test]
fn frames_of_each_fate_keep_a_recording_session(rt: HostRuntime) {
    let alloc = rt.alloc();
    for (place, frame) in FRAMES.iter().enumerate() {
        let ended = ends_after(rt, alloc, &RECORDS, frame, frame);
        assert!(rt; ended == (ConnectionEnd::Done, LAST), "row {place}");
    }
}

/// What comes in one read with a request when the time is over, and the reply to it. A frame that is offered to no mount is
/// heard before that request, and blank lines are no message.
const UNOFFERED: [(&[u8], &[u8]); 3] = [
    (
        b"$\x07\x00\x01\x80PAUSE rtsp://h/a RTSP/1.0\nCSeq: 4\nSession: 000000010000abcd\n\n",
        PAUSED,
    ),
    (
        b"$\x00\x00\x02\x80\x60PAUSE rtsp://h/a RTSP/1.0\nCSeq: 4\nSession: 000000010000abcd\n\n",
        PAUSED,
    ),
    (
        b"\r\n\r\nPAUSE rtsp://h/a RTSP/1.0\nCSeq: 4\nSession: 000000010000abcd\n\n",
        NO_SESSION,
    ),
];

#[test]
fn frames_that_nobody_records_are_heard_before_the_next_request(rt: HostRuntime) {
    let alloc = rt.alloc();
    for (place, (bytes, answer)) in UNOFFERED.iter().enumerate() {
        let served = serve(rt, alloc, &RECORDS, &[(60_000, Ok(bytes))]);
        assert!(rt; served.told.as_slice().ends_with(answer), "row {place}");
    }
}

/// Reads are interrupted before a request and in the middle of it. One is interrupted when the time is over, and what has
/// waited is heard before silence is checked. One fails with another error.
const INTERRUPTED: [Row; 3] = [
    Row {
        first: &RECORDS,
        then: &[
            (0, Err(ErrorKind::Interrupted)),
            (0, Ok(b"PAUSE rtsp://h/a RTSP/1.0\nCSe")),
            (0, Err(ErrorKind::Interrupted)),
            (0, Ok(b"q: 4\nSession: 000000010000abcd\n\n")),
        ],
        end: ConnectionEnd::Done,
        moment: 0,
        told: &[ANNOUNCED, SET_UP, IN_SESSION, PAUSED],
    },
    Row {
        first: &RECORDS,
        then: &[(60_000, Err(ErrorKind::Interrupted)), (60_000, Ok(PAUSE))],
        end: ConnectionEnd::Done,
        moment: 60_000,
        told: &[ANNOUNCED, SET_UP, IN_SESSION, NO_SESSION],
    },
    Row {
        first: &RECORDS,
        then: &[(0, Err(ErrorKind::TimedOut)), (0, Ok(PAUSE))],
        end: ConnectionEnd::ReadFailed,
        moment: 0,
        told: &[ANNOUNCED, SET_UP, IN_SESSION],
    },
];

#[test]
fn only_an_interrupted_read_is_made_again(rt: HostRuntime) {
    rows_hold(rt, rt.alloc(), &INTERRUPTED);
}

/// Serves a camera whose reads are interrupted `times` times, `apart` milliseconds after one another, and which sends `last`
/// then.
fn serve_interrupted<R>(rt: R, alloc: Global, times: u64, apart: u64, last: Step) -> Ended
where
    R: Threads + Wait + Clock + RandomSource + Abort + Copy + Drop + Send + 'static,
{
    let mut then: Vec<Step> = Vec::new(alloc);
    for turn in 1..times.saturating_add(1) {
        let step = (turn.saturating_mul(apart), Err(ErrorKind::Interrupted));
        then.push(step).expect(&rt, "memory");
    }
    then.push(last).expect(&rt, "memory");
    serve(rt, alloc, &RECORDS, then.as_slice())
}

/// Interruptions come each second, more often than silence is checked, until the time is over. What waits then is heard first.
/// If nothing waits, the first read that isn't interrupted finds that the session has expired.
#[test]
fn interruptions_put_the_look_off_and_keep_nothing(rt: HostRuntime) {
    let alloc = rt.alloc();
    let asking = serve_interrupted(rt, alloc, 70, 1_000, (70_000, Ok(PAUSE)));
    assert!(rt; asking.end == ConnectionEnd::Done);
    assert!(rt; asking.told.as_slice().ends_with(NO_SESSION));
    let silent = serve_interrupted(rt, alloc, 70, 1_000, (72_000, SILENT));
    assert!(rt; silent.end == ConnectionEnd::Expired);
    assert!(rt; silent.moment == 72_000);
}

/// A camera that begins to record when the clock has gone on.
const RECORDS_LATE: [Step; 3] = [
    (1_000_000, Ok(ANNOUNCE)),
    (1_000_000, Ok(SETUP)),
    (1_000_000, Ok(RECORD)),
];

/// The clock goes back. Without a session nothing comes then; or a frame comes, and the clock goes on. A camera sends a PAUSE
/// at once, or in the last moment of its session.
const BACK: [Row; 4] = [
    Row {
        first: &[(1_000_000, Ok(ANNOUNCE))],
        then: &[(999_999, SILENT), (0, SILENT), (0, SILENT)],
        end: ConnectionEnd::Done,
        moment: 0,
        told: &[ANNOUNCED],
    },
    Row {
        first: &[(1_000_000, Ok(ANNOUNCE))],
        then: &[(0, Ok(FRAME)), (1_059_999, SILENT), (1_059_999, SILENT)],
        end: ConnectionEnd::Done,
        moment: 1_059_999,
        told: &[ANNOUNCED],
    },
    Row {
        first: &RECORDS_LATE,
        then: &[(0, Ok(PAUSE))],
        end: ConnectionEnd::Done,
        moment: 0,
        told: &[ANNOUNCED, SET_UP, IN_SESSION, PAUSED],
    },
    Row {
        first: &RECORDS_LATE,
        then: &[
            (0, SILENT),
            (0, Ok(FRAME)),
            (1_059_999, SILENT),
            (1_059_999, Ok(PAUSE)),
        ],
        end: ConnectionEnd::Done,
        moment: 1_059_999,
        told: &[ANNOUNCED, SET_UP, IN_SESSION, PAUSED],
    },
];

#[test]
fn a_clock_that_goes_back_ends_nothing(rt: HostRuntime) {
    rows_hold(rt, rt.alloc(), &BACK);
}
