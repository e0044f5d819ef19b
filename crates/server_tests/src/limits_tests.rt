//! Connections that keep a mount's name without using it, and those that may not play.
use crate::connection_tests::{
    ANNOUNCE, ANNOUNCED, IN_SESSION, PAUSE, RECORD, SET_UP, SETUP, TEARDOWN,
};
use crate::devices::joined;
use crate::moments::Dial;
use crate::rings::Rings;
use crate::serving::{Served, book_of, serve_with, shared_over};
use crate::steps::{SILENT, Step, Stepped};
use crate::words::OneWord;
use admission::Rights;
use interleaved::Reading;
use relay_accounts::ConnectionEnd;
use relay_connection::{ConnectionClock, IdlePolicy, IdleReader};
use relay_log::Events;
use session_state::Moments;
use std::alloc::Global;
use std::process::Abort;
use std::random::RandomSource;
use std::sync::{Arc, Wait};
use std::thread::Threads;
use std::time::Clock;
use test_kit::FRAME;

/// Silence is checked every two seconds, and a connection that records is disconnected after five.
const FIVE_SECONDS: IdlePolicy = IdlePolicy {
    looks: 2_000,
    idle: None,
    silent: Some(5_000),
};

/// What a peer sends and at which moments, in milliseconds, how its connection ends and at which moment.
#[derive(Clone, Copy)]
struct Row {
    first: &'static [Step],
    then: &'static [Step],
    end: ConnectionEnd,
    moment: u64,
}

const OPTIONS: &[u8] = b"OPTIONS * RTSP/1.0\nCSeq: 9\n\n";

const ROWS: [Row; 6] = [
    // However much it asks, a mount without a SETUP is kept for a minute.
    Row {
        first: &[(0, Ok(ANNOUNCE))],
        then: &[
            (30_000, Ok(OPTIONS)),
            (60_000, Ok(OPTIONS)),
            (90_000, Ok(OPTIONS)),
        ],
        end: ConnectionEnd::NotSetUp,
        moment: 60_000,
    },
    Row {
        first: &[(0, Ok(ANNOUNCE))],
        then: &[
            (30_000, Ok(OPTIONS)),
            (59_999, Ok(SETUP)),
            (90_000, Ok(OPTIONS)),
        ],
        end: ConnectionEnd::Done,
        moment: 90_000,
    },
    // The minute counts from the last ANNOUNCE.
    Row {
        first: &[(0, Ok(ANNOUNCE)), (0, Ok(SETUP)), (10_000, Ok(TEARDOWN))],
        then: &[
            (70_000, Ok(ANNOUNCE)),
            (100_000, Ok(OPTIONS)),
            (129_999, Ok(OPTIONS)),
            (132_000, Ok(OPTIONS)),
        ],
        end: ConnectionEnd::NotSetUp,
        moment: 132_000,
    },
    // Each whole frame is heard.
    Row {
        first: &[(0, Ok(ANNOUNCE)), (0, Ok(SETUP)), (0, Ok(RECORD))],
        then: &[
            (4_999, Ok(FRAME)),
            (9_998, Ok(FRAME)),
            (14_997, SILENT),
            (14_998, SILENT),
            (20_000, Ok(FRAME)),
        ],
        end: ConnectionEnd::Silent,
        moment: 14_998,
    },
    // Neither a camera that pauses nor one that never recorded is disconnected by it.
    Row {
        first: &[(0, Ok(ANNOUNCE)), (0, Ok(SETUP)), (0, Ok(RECORD))],
        then: &[(1_000, Ok(PAUSE)), (8_000, SILENT), (30_000, Ok(OPTIONS))],
        end: ConnectionEnd::Done,
        moment: 30_000,
    },
    Row {
        first: &[(0, Ok(ANNOUNCE)), (0, Ok(SETUP))],
        then: &[(8_000, SILENT), (30_000, Ok(OPTIONS))],
        end: ConnectionEnd::Done,
        moment: 30_000,
    },
];

/// Serves a connection with these rights, which sends `first` and then `then`. Returns the moment at which it ended, too.
fn serve<R>(rt: R, alloc: Global, first: &[Step], then: &[Step], rights: Rights) -> (Served, u64)
where
    R: Threads + Wait + Clock + RandomSource + Abort + Copy + Drop + Send + 'static,
{
    let book = book_of(&rt, alloc, 1, 1);
    let theirs = Arc::try_clone(&book).expect(&rt, "a count of its users");
    let shared = shared_over(&rt, alloc, theirs, Rings::of(&rt, alloc, 1), OneWord);
    let mut clock = Dial::new(&rt, alloc);
    let connection_clock = ConnectionClock::new(alloc, clock).expect(&rt, "memory");
    let source = Stepped::new(&rt, alloc, clock, first, then);
    let idle_reader = IdleReader::new(rt, source, &book, 1, &connection_clock, FIVE_SECONDS).expect(
        &rt, "memory",
    );
    let reading = Reading::new(idle_reader);
    let events = Events::none();
    let served = serve_with(
        rt,
        rt,
        alloc,
        &shared,
        1,
        reading,
        events,
        connection_clock,
        rights,
    );
    (served, clock.now())
}

#[test]
fn a_name_that_is_not_used_is_given_back(rt: HostRuntime) {
    for (place, row) in ROWS.iter().enumerate() {
        let (served, moment) = serve(rt, rt.alloc(), row.first, row.then, Rights::all());
        let end = served.outcome.end;
        assert!(rt; end == row.end, "row {place}: {end}");
        assert!(rt; moment == row.moment, "row {place}: {moment}");
    }
}

const DESCRIBE: &[u8] = b"DESCRIBE rtsp://h/a RTSP/1.0\nCSeq: 7\n\n";

const FORBIDDEN: &[u8] = b"RTSP/1.0 403 Forbidden\r\nCSeq: 7\r\n\r\n";

/// A camera that may not play asks for its own description, which is refused and keeps its session, too: a minute after its SETUP it
/// records.
#[test]
fn a_request_that_is_barred_is_heard(rt: HostRuntime) {
    let alloc = rt.alloc();
    let first = [(0, Ok(ANNOUNCE)), (0, Ok(SETUP))];
    let then = [(50_000, Ok(DESCRIBE)), (100_000, Ok(RECORD))];
    let (served, _) = serve(rt, alloc, &first, &then, Rights::new(true, false));
    let told = joined(&rt, alloc, &[ANNOUNCED, SET_UP, FORBIDDEN, IN_SESSION]);
    assert!(rt; served.told.as_slice() == told.as_slice());
}

/// A peer that may not publish asks, and may ask on.
#[test]
fn an_announce_that_is_barred_makes_no_mount(rt: HostRuntime) {
    let alloc = rt.alloc();
    let first = [(0, Ok(ANNOUNCE)), (0, Ok(SETUP))];
    let (served, _) = serve(rt, alloc, &first, &[], Rights::new(false, true));
    let told = joined(
        &rt,
        alloc,
        &[
            b"RTSP/1.0 403 Forbidden\r\nCSeq: 1\r\n\r\n",
            b"RTSP/1.0 404 Not Found\r\nCSeq: 2\r\n\r\n",
        ],
    );
    assert!(rt; served.told.as_slice() == told.as_slice());
}
