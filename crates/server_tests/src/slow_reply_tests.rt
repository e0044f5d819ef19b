//! Sessions whose time is over while a reply is being written.
ghost use Rattle.std.specs.Prelude.{◌≤◌};

use crate::account_tests::SETUP_OUT;
use crate::connection_tests::{ANNOUNCE, ANNOUNCED, IN_SESSION, PAUSE, RECORD, SET_UP, SETUP};
use crate::devices::{flag, joined};
use crate::expiry_tests::{NO_SESSION, PAUSED, PLAY, PLAY_AGAIN, PLAYER_PAUSE, camera, replies};
use crate::moments::{Dial, Still};
use crate::rings::{Owned, Rings};
use crate::serving::{Served, SharedRings, book_of, sent_on, shared_over, told_by};
use crate::silence_tests::SILENCE;
use crate::steps::{SILENT, Step, Stepped};
use crate::words::OneWord;
use admission::Rights;
use interleaved::{Reading, TryWrite, Writing};
use packet_ring::Pass;
use relay_accounts::ConnectionEnd;
use relay_connection::{ConnectionClock, IdleReader, SharedBook, run_connection};
use relay_fanout::{Seat, WritingSide};
use relay_log::Events;
use session_state::Moments;
use std::alloc::Global;
use std::io;
use std::io::Write;
use std::process::Abort;
use std::random::RandomSource;
use std::sync::atomic::Ordering;
use std::sync::{Arc, Mutex, Wait};
use std::thread::Threads;
use std::time::Clock;
use test_kit::Bytes;

/// The moment from which a socket takes a byte at a time. The request with the slow reply comes then.
const SLOW_FROM: u64 = 1_000;

/// How a socket takes the bytes of a slow reply.
#[derive(Clone, Copy, Drop)]
struct Slow {
    /// How many milliseconds it takes for each of them.
    pace: u64,
    /// After how many bytes it takes all that come, or none.
    bytes: usize,
    fails: bool,
}

/// Keeps what is written for the threads that share it, and moves its clock on.
#[derive(Drop)]
struct Dripping<R> {
    rt: R,
    kept: Bytes,
    clock: Dial,
    slow: Slow,
}

impl<R> Dripping<R> {
    /// Returns how many of `len` bytes are taken.
    fn taken(&mut self, len: usize) -> usize
        ensures { result ≤ len }
    {
        let now = self.clock.now();
        if len == 0 || now < SLOW_FROM {
            return len;
        }
        if self.slow.bytes > 0 {
            self.slow.bytes -= 1;
            self.clock.set(now.saturating_add(self.slow.pace));
            return 1;
        }
        if self.slow.fails { 0 } else { len }
    }
}

impl<R: Wait> Write for Dripping<R> {
    fn write(&mut self, buf: &[u8]) -> io::Result<usize> {
        let count = self.taken(buf.len());
        self.kept.lock(&self.rt).extend_from_slice(&buf[..count])?;
        Ok(count)
    }

    fn flush(&mut self) -> io::Result<()> {
        Ok(())
    }
}

impl<R: Wait> TryWrite for Dripping<R> {}

/// Serves this connection of a book, which sends `first`, and then `then`.
fn serve<R>(
    rt: R,
    alloc: Global,
    book: &SharedBook<Seat<Owned<Pass>>>,
    shared: SharedRings<OneWord>,
    conn: u64,
    first: &[Step],
    row: &Row,
) -> Served
where
    R: Threads + Wait + Clock + Abort + Copy + Drop + Send + 'static,
{
    let bytes = Arc::new(alloc, Mutex::new(Vec::new(alloc))).expect(&rt, "memory");
    let clock = Dial::new(&rt, alloc);
    let sink = Dripping {
        rt,
        kept: Arc::try_clone(&bytes).expect(&rt, "a count of its users"),
        clock,
        slow: row.slow,
    };
    let connection_clock = ConnectionClock::new(alloc, clock).expect(&rt, "memory");
    let source = Stepped::new(&rt, alloc, clock, first, row.then);
    let idle_reader = IdleReader::new(rt, source, book, conn, &connection_clock, SILENCE).expect(
        &rt, "memory",
    );
    let outcome = run_connection(
        rt,
        alloc,
        shared,
        conn,
        Reading::new(idle_reader),
        sent_on(WritingSide::new(alloc, Writing::new(sink))),
        Events::none(),
        connection_clock,
        Rights::all(),
    );
    Served {
        outcome,
        told: Vec::from_slice(alloc, bytes.lock(&rt).as_slice()).expect(&rt, "memory"),
    }
}

/// What comes after the slow reply, how the connection ends, and what it is sent from that reply on.
#[derive(Clone, Copy)]
struct Row {
    slow: Slow,
    then: &'static [Step],
    end: ConnectionEnd,
    told: &'static [&'static [u8]],
}

/// The bytes of a reply in a session.
const REPLY: usize = 55;

/// The reply is written within the session's time, and in more than that.
const IN_TIME: Slow = Slow {
    pace: 1_000,
    bytes: REPLY,
    fails: false,
};

const TOO_SLOW: Slow = Slow {
    pace: 2_000,
    bytes: REPLY,
    fails: false,
};

/// Its beginning is written when the time is over, and nothing more.
const CUT: Slow = Slow {
    pace: 2_000,
    bytes: 40,
    fails: true,
};

/// A camera that records, and sends an empty GET_PARAMETER in its session.
const CAMERA: [Step; 4] = [
    (0, Ok(ANNOUNCE)),
    (0, Ok(SETUP)),
    (0, Ok(RECORD)),
    (
        SLOW_FROM,
        Ok(b"GET_PARAMETER rtsp://h/a RTSP/1.0\nCSeq: 4\nSession: 000000010000abcd\n\n"),
    ),
];

/// The session's time counts from the request, not from its reply. What has come meanwhile is heard, and finds no session; and
/// nothing comes.
const CAMERAS: [Row; 5] = [
    Row {
        slow: IN_TIME,
        then: &[(60_999, Ok(PAUSE))],
        end: ConnectionEnd::Done,
        told: &[PAUSED, PAUSED],
    },
    Row {
        slow: IN_TIME,
        then: &[(61_000, Ok(PAUSE))],
        end: ConnectionEnd::Done,
        told: &[PAUSED, NO_SESSION],
    },
    Row {
        slow: TOO_SLOW,
        then: &[(112_000, Ok(PAUSE)), (112_000, Ok(ANNOUNCE))],
        end: ConnectionEnd::Done,
        told: &[PAUSED, NO_SESSION, ANNOUNCED],
    },
    Row {
        slow: TOO_SLOW,
        then: &[(112_000, SILENT)],
        end: ConnectionEnd::Expired,
        told: &[PAUSED],
    },
    Row {
        slow: CUT,
        then: &[],
        end: ConnectionEnd::WriteFailed,
        told: &[b"RTSP/1.0 200 OK\r\nCSeq: 4\r\nSession: 00000"],
    },
];

/// Its name is free after its connection has ended.
#[test]
fn a_camera_is_told_its_slow_reply_whole(rt: HostRuntime) {
    let alloc = rt.alloc();
    let first = joined(&rt, alloc, &[ANNOUNCED, SET_UP, IN_SESSION]);
    for (place, row) in CAMERAS.iter().enumerate() {
        let book = book_of(&rt, alloc, 1, 2);
        let theirs = Arc::try_clone(&book).expect(&rt, "a count of its users");
        let shared = shared_over(&rt, alloc, theirs, Rings::of(&rt, alloc, 1), OneWord);
        let theirs = Arc::try_clone(&shared).expect(&rt, "a count of its users");
        let served = serve(rt, alloc, &book, theirs, 1, &CAMERA, row);
        let last = joined(&rt, alloc, row.told);
        let all = joined(&rt, alloc, &[first.as_slice(), last.as_slice()]);
        assert!(rt;
            served.outcome.end == row.end,
            "row {place}: {}",
            served.outcome.end
        );
        assert!(rt; served.told.as_slice() == all.as_slice(), "row {place}");
        assert!(rt; shared.recorded(&rt) == 0, "row {place}");
        let said = joined(&rt, alloc, &[ANNOUNCE]);
        let other = told_by(rt, alloc, &shared, 2, said, Still);
        assert!(rt; other.as_slice() == ANNOUNCED, "row {place}");
    }
}

/// A mount without a SETUP, and two requests that come in one piece.
const ANNOUNCES: [Step; 2] = [
    (0, Ok(ANNOUNCE)),
    (
        SLOW_FROM,
        Ok(b"OPTIONS * RTSP/1.0\nCSeq: 2\n\nOPTIONS * RTSP/1.0\nCSeq: 3\n\n"),
    ),
];

/// The first reply is written a minute after the ANNOUNCE.
const MINUTE: Row = Row {
    slow: Slow {
        pace: 1_000,
        bytes: 59,
        fails: false,
    },
    then: &[],
    end: ConnectionEnd::NotSetUp,
    told: &[],
};

#[test]
fn a_name_is_given_back_between_requests_of_one_piece(rt: HostRuntime) {
    let alloc = rt.alloc();
    let book = book_of(&rt, alloc, 1, 1);
    let theirs = Arc::try_clone(&book).expect(&rt, "a count of its users");
    let shared = shared_over(&rt, alloc, theirs, Rings::of(&rt, alloc, 1), OneWord);
    let served = serve(rt, alloc, &book, shared, 1, &ANNOUNCES, &MINUTE);
    assert!(rt; served.outcome.end == MINUTE.end, "{}", served.outcome.end);
    assert!(rt; replies(served.told.as_slice(), b"RTSP/1.0 200 ") == 2);
}

/// An empty GET_PARAMETER in a player's session.
pub(crate) const ASKS: &[u8] =
    b"GET_PARAMETER rtsp://h/a RTSP/1.0\nCSeq: 4\nSession: 000000020000abcd\n\n";

/// A player that sends an empty GET_PARAMETER in its session.
const PLAYER: [Step; 3] = [(0, Ok(SETUP_OUT)), (0, Ok(PLAY)), (SLOW_FROM, Ok(ASKS))];

/// The reply to it, and to a PAUSE.
pub(crate) const ANSWERED: &[u8] =
    b"RTSP/1.0 200 OK\r\nCSeq: 4\r\nSession: 000000020000abcd\r\n\r\n";

/// As the camera's, but a player's request gets the reply that it has no session, and then its connection ends.
const PLAYERS: [Row; 4] = [
    Row {
        slow: IN_TIME,
        then: &[(60_999, Ok(PLAYER_PAUSE))],
        end: ConnectionEnd::Done,
        told: &[ANSWERED, ANSWERED],
    },
    Row {
        slow: TOO_SLOW,
        then: &[(112_000, Ok(PLAYER_PAUSE))],
        end: ConnectionEnd::Expired,
        told: &[ANSWERED, NO_SESSION],
    },
    Row {
        slow: TOO_SLOW,
        then: &[(112_000, SILENT)],
        end: ConnectionEnd::Expired,
        told: &[ANSWERED],
    },
    Row {
        slow: CUT,
        then: &[],
        end: ConnectionEnd::WriteFailed,
        told: &[b"RTSP/1.0 200 OK\r\nCSeq: 4\r\nSession: 00000"],
    },
];

/// The only seat is free, with its pass, after the connection of the player that had it has ended. Its camera's session goes
/// on.
#[test]
fn a_player_is_told_its_slow_reply_whole(rt: HostRuntime) {
    let alloc = rt.alloc();
    for (place, row) in PLAYERS.iter().enumerate() {
        let book = book_of(&rt, alloc, 1, 3);
        let theirs = Arc::try_clone(&book).expect(&rt, "a count of its users");
        let shared = shared_over(&rt, alloc, theirs, Rings::of(&rt, alloc, 1), OneWord);
        let close = flag(&rt, alloc);
        let camera = camera(rt, alloc, &shared, Dial::STILL, &close);
        let theirs = Arc::try_clone(&shared).expect(&rt, "a count of its users");
        let served = serve(rt, alloc, &book, theirs, 2, &PLAYER, row);
        assert!(rt;
            served.outcome.end == row.end,
            "row {place}: {}",
            served.outcome.end
        );
        let last = joined(&rt, alloc, row.told);
        assert!(rt;
            served.told.as_slice().ends_with(last.as_slice()),
            "row {place}"
        );
        let said = joined(&rt, alloc, &[SETUP_OUT, PLAY_AGAIN]);
        let next = told_by(rt, alloc, &shared, 3, said, Still);
        assert!(rt;
            replies(next.as_slice(), b"RTSP/1.0 200 ") == 2,
            "row {place}"
        );
        close.store(true, Ordering::SeqCst);
        let (end, _, written) = camera.end(&rt);
        assert!(rt; end == ConnectionEnd::Done, "row {place}");
        assert!(rt;
            written.lock(&rt).as_slice().ends_with(PAUSED),
            "row {place}"
        );
    }
}
