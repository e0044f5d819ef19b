//! Sessions that have expired when a request comes, before the silence was seen.
use crate::account_tests::{SET_UP as PLAYS, SETUP_OUT};
use crate::beside_tests::recording;
use crate::connection_tests::{ANNOUNCE, ANNOUNCED, IN_SESSION, PAUSE, RECORD, SET_UP, SETUP};
use crate::devices::{Flag, Staged, flag, joined};
use crate::moments::{Dial, Leaping, Still};
use crate::rings::Rings;
use crate::serving::{
    Serving, SharedRings, Watch, book_of, line_to, serve_in_thread, serve_source, shared_over,
    told_by, told_until,
};
use crate::words::OneWord;
use relay_accounts::ConnectionEnd;
use std::alloc::Global;
use std::process::Abort;
use std::random::RandomSource;
use std::sync::atomic::Ordering;
use std::sync::{Arc, Wait};
use std::thread::Threads;
use std::time::Clock;
use test_kit::{has_come, wait_for};

/// Returns what a connection that sends this is sent, by a clock that leaps when its fourth message comes. The clock is read
/// when the connection comes, too.
fn told<R>(
    rt: R,
    alloc: Global,
    shared: &SharedRings<OneWord>,
    conn: u64,
    said: &[&[u8]],
    moment: u64,
    end: ConnectionEnd,
) -> Vec<u8>
where
    R: Threads + Wait + Clock + Abort + Copy + Drop + Send + 'static,
{
    let clock = Leaping { before: 4, moment };
    told_until(
        rt,
        alloc,
        shared,
        conn,
        joined(&rt, alloc, said),
        clock,
        end,
    )
}

/// Asserts that a camera that has recorded, and then sends a PAUSE and announces its mount again, is sent these replies.
fn camera_is_told<R>(rt: R, alloc: Global, moment: u64, last: &[&[u8]])
where
    R: Threads + Wait + Clock + RandomSource + Abort + Copy + Drop + Send + 'static,
{
    let book = book_of(&rt, alloc, 1, 1);
    let shared = shared_over(&rt, alloc, book, Rings::of(&rt, alloc, 1), OneWord);
    let said = [ANNOUNCE, SETUP, RECORD, PAUSE, ANNOUNCE];
    let done = ConnectionEnd::Done;
    let told = told(rt, alloc, &shared, 1, said.as_slice(), moment, done);
    let first = joined(&rt, alloc, &[ANNOUNCED, SET_UP, IN_SESSION]);
    let last = joined(&rt, alloc, last);
    assert!(rt;
        joined(&rt, alloc, &[first.as_slice(), last.as_slice()]).as_slice() == told.as_slice()
    );
}

pub(crate) const PAUSED: &[u8] = b"RTSP/1.0 200 OK\r\nCSeq: 4\r\nSession: 000000010000abcd\r\n\r\n";

/// An ANNOUNCE in a session: the state is checked before the owner of the name.
const IN_READY: &[u8] =
    b"RTSP/1.0 455 Method Not Valid in This State\r\nCSeq: 1\r\nAllow: OPTIONS, DESCRIBE, GET_PARAMETER, SETUP, PLAY, RECORD, TEARDOWN\r\n\r\n";

pub(crate) const NO_SESSION: &[u8] = b"RTSP/1.0 454 Session Not Found\r\nCSeq: 4\r\n\r\n";

#[test]
fn a_cameras_mount_has_ended_with_its_session(rt: HostRuntime) {
    let alloc = rt.alloc();
    camera_is_told(rt, alloc, 59_999, &[PAUSED, IN_READY]);
    camera_is_told(rt, alloc, 60_000, &[NO_SESSION, ANNOUNCED]);
    camera_is_told(rt, alloc, u64::MAX, &[NO_SESSION, ANNOUNCED]);
}

/// A PLAY in the player's session, and one in the server's next session.
pub(crate) const PLAY: &[u8] = b"PLAY rtsp://h/a RTSP/1.0\nCSeq: 3\nSession: 000000020000abcd\n\n";

pub(crate) const PLAY_AGAIN: &[u8] =
    b"PLAY rtsp://h/a RTSP/1.0\nCSeq: 6\nSession: 000000030000abcd\n\n";

pub(crate) const PLAYER_PAUSE: &[u8] =
    b"PAUSE rtsp://h/a RTSP/1.0\nCSeq: 4\nSession: 000000020000abcd\n\n";

const OPTIONS: &[u8] = b"OPTIONS * RTSP/1.0\nCSeq: 1\n\n";

/// Connection 1, which records by this clock. After it is let on it sends a PAUSE, and after that is set it closes.
pub(crate) fn camera<R>(
    rt: R,
    alloc: Global,
    shared: &SharedRings<OneWord>,
    clock: Dial,
    close: &Flag,
) -> Serving
where
    R: Threads + Wait + Clock + Abort + Copy + Drop + Send + 'static,
{
    let watch = Watch::new(&rt, alloc);
    let let_on = Arc::try_clone(&watch.let_on).expect(&rt, "a count of its users");
    let close = Arc::try_clone(close).expect(&rt, "a count of its users");
    let first = joined(&rt, alloc, &[ANNOUNCE, SETUP, RECORD]);
    let then = joined(&rt, alloc, &[PAUSE]);
    let source = Staged::new(rt, first, then, let_on)
        .until(close)
        .timed(clock);
    let camera = serve_source(rt, alloc, shared, watch, source);
    assert!(rt; has_come(&rt, &camera.watch.written, 0, IN_SESSION));
    camera
}

/// Connection 2, which plays. After it is let on it closes.
fn player<R>(rt: R, alloc: Global, shared: &SharedRings<OneWord>) -> Serving
where
    R: Threads + Wait + Clock + Abort + Copy + Drop + Send + 'static,
{
    let watch = Watch::new(&rt, alloc);
    let let_on = Arc::try_clone(&watch.let_on).expect(&rt, "a count of its users");
    let said = joined(&rt, alloc, &[SETUP_OUT, PLAY]);
    let source = Staged::new(rt, said, Vec::new(alloc), let_on);
    let line = line_to(rt, alloc, &watch.written, 1000);
    let thread = serve_in_thread(rt, alloc, shared, 2, source, line);
    assert!(rt; has_come(&rt, &watch.written, PLAYS, b"\r\n\r\n"));
    Serving { watch, thread }
}

/// Its player's frames have ended, so that nothing keeps its ring any more, though both connections stay open.
#[test]
fn an_expired_mounts_player_meets_the_end(rt: HostRuntime) {
    let alloc = rt.alloc();
    let rings = Rings::of(&rt, alloc, 1);
    let gone = Arc::try_clone(&rings.gone).expect(&rt, "a count of its users");
    let book = book_of(&rt, alloc, 1, 2);
    let theirs = Arc::try_clone(&book).expect(&rt, "a count of its users");
    let shared = shared_over(&rt, alloc, theirs, rings, OneWord);
    let close = flag(&rt, alloc);
    let clock = Dial::new(&rt, alloc);
    let camera = camera(rt, alloc, &shared, clock, &close);
    let player = player(rt, alloc, &shared);
    clock.set(60_000);
    camera.watch.let_on.store(true, Ordering::SeqCst);
    assert!(rt; has_come(&rt, &camera.watch.written, 0, NO_SESSION));
    assert!(rt; shared.recorded(&rt) == 0);
    wait_for(&rt, &gone);
    assert!(rt; gone.load(Ordering::SeqCst) && book.lock(&rt).is_open(1));
    close.store(true, Ordering::SeqCst);
    assert!(rt; camera.end(&rt).0 == ConnectionEnd::Done);
    assert!(rt; player.end(&rt).0 == ConnectionEnd::Done);
}

/// Returns how many replies have a status.
pub(crate) fn replies(told: &[u8], head: &[u8]) -> usize {
    let mut count = 0usize;
    for at in 0..told.len() {
        if told[at..].starts_with(head) {
            count = count.saturating_add(1);
        }
    }
    count
}

/// Asserts that a player that sends PAUSE, SETUP and PLAY once more gets this number of 200 replies and this number of 454
/// replies, up to this end.
fn player_is_told<R>(
    rt: R,
    alloc: Global,
    moment: u64,
    good: usize,
    without: usize,
    end: ConnectionEnd,
)
where
    R: Threads + Wait + Clock + RandomSource + Abort + Copy + Drop + Send + 'static,
{
    let book = book_of(&rt, alloc, 1, 3);
    let shared = shared_over(&rt, alloc, book, Rings::of(&rt, alloc, 1), OneWord);
    let camera = recording(rt, alloc, &shared);
    let said = [
        OPTIONS,
        SETUP_OUT,
        PLAY,
        PLAYER_PAUSE,
        SETUP_OUT,
        PLAY_AGAIN,
    ];
    let told = told(rt, alloc, &shared, 2, said.as_slice(), moment, end);
    assert!(rt; replies(told.as_slice(), b"RTSP/1.0 200 ") == good);
    assert!(rt; replies(told.as_slice(), b"RTSP/1.0 454 ") == without);
    let said = joined(&rt, alloc, &[SETUP_OUT, PLAY_AGAIN]);
    let next = told_by(rt, alloc, &shared, 3, said, Still);
    assert!(rt; replies(next.as_slice(), b"RTSP/1.0 200 ") == 2);
    camera.end(&rt);
}

/// A player whose session has expired is sent that reply, and nothing after it. The only seat is free again when another
/// player plays.
#[test]
fn a_players_seat_is_free_once_its_session_has_expired(rt: HostRuntime) {
    let alloc = rt.alloc();
    player_is_told(rt, alloc, 59_999, 4, 2, ConnectionEnd::Done);
    player_is_told(rt, alloc, 60_000, 3, 1, ConnectionEnd::Expired);
}
