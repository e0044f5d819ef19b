//! The end of a mount while a reply is being written to its player.
use crate::account_tests::{SET_UP, SETUP_OUT, Stall, stalled_line};
use crate::devices::{Flag, Staged, flag, joined};
use crate::expiry_tests::{PLAY, camera};
use crate::moments::Dial;
use crate::rings::{Parting, Rings};
use crate::serving::{Serving, SharedRings, Watch, book_of};
use crate::slow_reply_tests::{ANSWERED, ASKS};
use crate::words::OneWord;
use admission::{OpenGate, Rights};
use interleaved::Reading;
use relay_accounts::ConnectionEnd;
use relay_connection::{ConnectionClock, Outgoing, Shared, run_connection};
use relay_log::Events;
use sockets::HangUp;
use std::alloc::Global;
use std::process::Abort;
use std::random::RandomSource;
use std::sync::atomic::Ordering;
use std::sync::{Arc, Wait};
use std::thread;
use std::thread::Threads;
use std::time::{Clock, Duration};
use test_kit::{Bytes, Count, count, has_come, no_counts, wait_for};

/// Notes when its peer is sent the end of the stream, and how many bytes were written by then.
#[derive(Drop)]
struct Noting<R> {
    rt: R,
    written: Bytes,
    bytes: Count,
    is_told: Flag,
}

impl<R: Wait> HangUp for Noting<R> {
    fn hang_up(&self) {}

    fn close_writes(&self) {
        let bytes = self.written.lock(&self.rt).len() as u64;
        self.bytes.store(bytes, Ordering::SeqCst);
        self.is_told.store(true, Ordering::SeqCst);
    }

    fn limit_waits(&self, _wait: u64) {}
}

/// What two connections share over such a ring. Players are sent the end of the stream at the end of their mount, and are
/// disconnected ten seconds later.
fn shared<R: RandomSource + Wait + Abort>(
    rt: &R,
    alloc: Global,
    parting: &Parting,
) -> SharedRings<OneWord> {
    let rings = Rings::holding(rt, alloc, parting);
    let after_end = Some(Duration::from_secs(10));
    let book = book_of(rt, alloc, 1, 2);
    let counts = no_counts(alloc).expect(rt, "memory");
    let shared = Shared::new(alloc, rings, book, OneWord, OpenGate, after_end, counts);
    Arc::new(alloc, shared.expect(rt, "memory")).expect(rt, "memory")
}

/// Connection 2, which plays, sends an empty GET_PARAMETER after it is let on, and closes after that is set.
fn player<R>(
    rt: R,
    alloc: Global,
    shared: &SharedRings<OneWord>,
    stall: &Stall,
    (bytes, is_told): (&Count, &Flag),
    close: &Flag,
) -> Serving
where
    R: Threads + Wait + Clock + Abort + Copy + Drop + Send + Sync + 'static,
{
    let watch = Watch::new(&rt, alloc);
    let let_on = Arc::try_clone(&watch.let_on).expect(&rt, "a count of its users");
    let close = Arc::try_clone(close).expect(&rt, "a count of its users");
    let said = joined(&rt, alloc, &[SETUP_OUT, PLAY]);
    let source = Staged::new(rt, said, joined(&rt, alloc, &[ASKS]), let_on).until(close);
    let shutdown = Noting {
        rt,
        written: Arc::try_clone(&watch.written).expect(&rt, "a count of its users"),
        bytes: Arc::try_clone(bytes).expect(&rt, "a count of its users"),
        is_told: Arc::try_clone(is_told).expect(&rt, "a count of its users"),
    };
    let outgoing = Outgoing {
        writing: stalled_line(rt, alloc, &watch, stall),
        shutdown,
        writers: None,
    };
    let shared = Arc::try_clone(shared).expect(&rt, "a count of its users");
    let connection_clock = ConnectionClock::new(alloc, Dial::STILL).expect(&rt, "memory");
    let thread = thread::spawn(&rt, move || {
        let (reader, events) = (Reading::new(source), Events::none());
        let rights = Rights::all();
        run_connection(
            rt,
            alloc,
            shared,
            2,
            reader,
            outgoing,
            events,
            connection_clock,
            rights,
        )
    })
    .expect(&rt, "a thread");
    assert!(rt; has_come(&rt, &watch.written, SET_UP, b"\r\n\r\n"));
    Serving { watch, thread }
}

/// The player's thread is held as it leaves the ended mount, until a write of the reply makes no progress. The write goes on a
/// while after the thread does.
#[test]
fn the_end_comes_after_the_reply_that_is_being_written(rt: HostRuntime) {
    let alloc = rt.alloc();
    let parting = Parting::new(&rt, alloc);
    let shared = shared(&rt, alloc, &parting);
    let (mount_ends, closes, is_told) = (flag(&rt, alloc), flag(&rt, alloc), flag(&rt, alloc));
    let bytes = count(alloc).expect(&rt, "memory");
    let stall = Stall::new(&rt, alloc);
    let camera = camera(rt, alloc, &shared, Dial::STILL, &mount_ends);
    let player = player(rt, alloc, &shared, &stall, (&bytes, &is_told), &closes);
    mount_ends.store(true, Ordering::SeqCst);
    assert!(rt; camera.end(&rt).0 == ConnectionEnd::Done);
    wait_for(&rt, &parting.has_come);
    player.watch.let_on.store(true, Ordering::SeqCst);
    wait_for(&rt, &stall.waits);
    parting.let_on.store(true, Ordering::SeqCst);
    thread::sleep(&rt, Duration::from_millis(50));
    assert!(rt; stall.waits.load(Ordering::SeqCst) && !is_told.load(Ordering::SeqCst));
    stall.end();
    wait_for(&rt, &is_told);
    assert!(rt; is_told.load(Ordering::SeqCst));
    let all = player.watch.written.lock(&rt).len() as u64;
    assert!(rt; bytes.load(Ordering::SeqCst) == all);
    closes.store(true, Ordering::SeqCst);
    let (end, _, written) = player.end(&rt);
    assert!(rt; end == ConnectionEnd::Done);
    assert!(rt; written.lock(&rt).as_slice().ends_with(ANSWERED));
}
