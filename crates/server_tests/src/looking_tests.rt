//! How often silence is checked, and what is known of a session that has ended by it.
use crate::account_tests::SETUP_OUT;
use crate::beside_tests::recording;
use crate::connection_tests::{ANNOUNCED, OTHER};
use crate::devices::{Staged, joined};
use crate::moments::Dial;
use crate::rings::{Owned, Rings};
use crate::serving::{
    Serving, SharedRings, Watch, book_of, line_to, serve_here, serve_in_thread, shared_over,
};
use crate::silence_tests::SILENCE;
use crate::steps::{SILENT, Step, Stepped};
use crate::words::OneWord;
use interleaved::Reading;
use packet_ring::Pass;
use relay_accounts::ConnectionEnd;
use relay_connection::{ConnectionClock, IdlePolicy, IdleReader};
use relay_fanout::Seat;
use relay_log::Events;
use std::alloc::Global;
use std::io::Read;
use std::process::Abort;
use std::sync::atomic::Ordering;
use std::sync::{Arc, Wait};
use std::thread;
use std::thread::Threads;
use std::time::{Clock, Duration};
use test_kit::{Count, count, has_come};

/// How many reads return before silence is checked, a tenth of a second after one another. The last of them returns two seconds
/// after the connection came.
const READS: u64 = 21;

/// Returns what these reads and one more give.
fn each_tenth(rt: &impl Abort, alloc: Global) -> Vec<Step> {
    let mut steps: Vec<Step> = Vec::new(alloc);
    for turn in 0..READS.saturating_add(1) {
        steps
            .push((turn.saturating_mul(100), Ok(b"O")))
            .expect(rt, "memory");
    }
    steps
}

/// Makes one more read than those that don't need the book, and counts the reads that have returned.
fn read_on<R, S>(mut idle_reader: IdleReader<R, Seat<Owned<Pass>>, Dial, S>, reads: &Count)
where
    R: Wait + Clock + Copy,
    S: Read + Drop,
{
    let mut buffer = [0; 16];
    for _ in 0..READS.saturating_add(1) {
        if idle_reader.read(&mut buffer).is_ok() {
            reads.fetch_add(1, Ordering::SeqCst);
        }
    }
}

/// Returns whether `want` reads have returned within 10,000 turns of a millisecond.
fn come_to<R: Clock>(rt: &R, reads: &Count, want: u64) -> bool {
    for _ in 0..10_000u32 {
        if reads.load(Ordering::SeqCst) >= want {
            return true;
        }
        thread::sleep(rt, Duration::from_millis(1));
    }
    false
}

/// The book is held by another thread meanwhile, which lets the last read go on.
#[test]
fn the_book_is_asked_each_two_seconds_and_no_more_often(rt: HostRuntime) {
    let alloc = rt.alloc();
    let book = book_of(&rt, alloc, 1, 1);
    let clock = Dial::new(&rt, alloc);
    let connection_clock = ConnectionClock::new(alloc, clock).expect(&rt, "memory");
    let steps = each_tenth(&rt, alloc);
    let source = Stepped::new(&rt, alloc, clock, steps.as_slice(), &[]);
    let idle_reader = IdleReader::new(rt, source, &book, 1, &connection_clock, SILENCE).expect(
        &rt, "memory",
    );
    let reads = count(alloc).expect(&rt, "memory");
    let theirs = Arc::try_clone(&reads).expect(&rt, "a count of its users");
    let held = book.lock(&rt);
    let reading = thread::spawn(&rt, move || read_on(idle_reader, &theirs)).expect(&rt, "a thread");
    assert!(rt; come_to(&rt, &reads, READS));
    thread::sleep(&rt, Duration::from_millis(50));
    assert!(rt; reads.load(Ordering::SeqCst) == READS);
    drop(held);
    reading.join(&rt);
    assert!(rt; reads.load(Ordering::SeqCst) == READS + 1);
}

/// Only a session's end is checked.
const STAYS: IdlePolicy = IdlePolicy {
    looks: 2_000,
    idle: None,
    silent: None,
};

/// A player's session is over, which leaves nothing to do. Then it sets up another mount.
const TWO_MOUNTS: [Step; 3] = [
    (0, Ok(SETUP_OUT)),
    (60_000, SILENT),
    (
        60_000,
        Ok(
            b"SETUP rtsp://h/b/trackID=0 RTSP/1.0\nCSeq: 3\nTransport: RTP/AVP/TCP;interleaved=0-1\n\n",
        ),
    ),
];

/// Connection 3, which has announced the other mount. After it is let on it closes.
fn other_camera<R>(rt: R, alloc: Global, shared: &SharedRings<OneWord>) -> Serving
where
    R: Threads + Wait + Clock + Abort + Copy + Drop + Send + 'static,
{
    let watch = Watch::new(&rt, alloc);
    let let_on = Arc::try_clone(&watch.let_on).expect(&rt, "a count of its users");
    let source = Staged::new(rt, joined(&rt, alloc, &[OTHER]), Vec::new(alloc), let_on);
    let line = line_to(rt, alloc, &watch.written, 1000);
    let thread = serve_in_thread(rt, alloc, shared, 3, source, line);
    assert!(rt; has_come(&rt, &watch.written, 0, ANNOUNCED));
    Serving { watch, thread }
}

#[test]
fn a_connection_is_told_of_by_its_last_session(rt: HostRuntime) {
    let alloc = rt.alloc();
    let book = book_of(&rt, alloc, 1, 3);
    let theirs = Arc::try_clone(&book).expect(&rt, "a count of its users");
    let shared = shared_over(&rt, alloc, theirs, Rings::of(&rt, alloc, 1), OneWord);
    let camera = recording(rt, alloc, &shared);
    let other = other_camera(rt, alloc, &shared);
    let clock = Dial::new(&rt, alloc);
    let connection_clock = ConnectionClock::new(alloc, clock).expect(&rt, "memory");
    let source = Stepped::new(&rt, alloc, clock, &TWO_MOUNTS, &[]);
    let idle_reader = IdleReader::new(rt, source, &book, 2, &connection_clock, STAYS).expect(
        &rt, "memory",
    );
    let reading = Reading::new(idle_reader);
    let served = serve_here(
        rt,
        rt,
        alloc,
        &shared,
        2,
        reading,
        Events::none(),
        connection_clock,
    );
    let outcome = served.outcome;
    assert!(rt; outcome.end == ConnectionEnd::Done);
    let part = outcome.part.expect(&rt, "a part in a mount");
    assert!(rt; part.name.as_slice() == b"b".as_slice());
    camera.end(&rt);
    other.end(&rt);
}
