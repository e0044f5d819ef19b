//! A connection that records while another one is refused a ring, or its mount.
use crate::connection_tests::{
    ANNOUNCE, ANNOUNCED, IN_SESSION, NO_RING, OTHER, PAUSE, RECORD, SET_UP, SETUP,
};
use crate::devices::joined;
use crate::moments::Still;
use crate::rings::Rings;
use crate::serving::{Serving, SharedRings, book_of, serve_camera, shared_over, told_by};
use crate::words::OneWord;
use relay_accounts::ConnectionEnd;
use std::alloc::Global;
use std::process::Abort;
use std::sync::atomic::Ordering;
use std::sync::{Arc, Wait};
use std::thread::Threads;
use std::time::Clock;
use test_kit::{FRAME, has_come};

const PAUSED: &[u8] = b"RTSP/1.0 200 OK\r\nCSeq: 4\r\nSession: 000000010000abcd\r\n\r\n";

/// Connection 1 has recorded a packet. After it is let on, another packet and a PAUSE come.
pub(crate) fn recording<R>(rt: R, alloc: Global, shared: &SharedRings<OneWord>) -> Serving
where
    R: Threads + Wait + Clock + Abort + Copy + Drop + Send + 'static,
{
    let first = joined(&rt, alloc, &[ANNOUNCE, SETUP, RECORD, FRAME]);
    let then = joined(&rt, alloc, &[FRAME, PAUSE]);
    let camera = serve_camera(rt, alloc, shared, first, then);
    assert!(rt; has_come(&rt, &camera.watch.written, 0, IN_SESSION));
    camera
}

/// Connection 1 records and pauses as if it were alone.
fn camera_pauses<R: Threads + Wait + Abort>(rt: &R, alloc: Global, camera: Serving) {
    let (end, counts, written) = camera.end(rt);
    assert!(rt; end == ConnectionEnd::Done);
    assert!(rt; counts.published == 2 && counts.strangers == 0 && !counts.has_losses());
    let all = joined(rt, alloc, &[ANNOUNCED, SET_UP, IN_SESSION, PAUSED]);
    assert!(rt; written.lock(rt).as_slice() == all.as_slice());
}

#[test]
fn a_refused_ring_leaves_another_connection_recording(rt: HostRuntime) {
    let alloc = rt.alloc();
    let shared = shared_over(
        &rt,
        alloc,
        book_of(&rt, alloc, 1, 2),
        Rings::refusing(&rt, alloc, 1..2),
        OneWord,
    );
    let camera = recording(rt, alloc, &shared);
    let said = joined(&rt, alloc, &[OTHER]);
    assert!(rt; told_by(rt, alloc, &shared, 2, said, Still).as_slice() == NO_RING);
    camera_pauses(&rt, alloc, camera);
}

const FORBIDDEN: &[u8] = b"RTSP/1.0 403 Forbidden\r\nCSeq: 1\r\n\r\n";

/// Two connections announce the mount of connection 1, twice each: one ring is made for both, beside that of the mount.
#[test]
fn a_refused_announce_leaves_its_ring_to_the_next(rt: HostRuntime) {
    let alloc = rt.alloc();
    let rings = Rings::of(&rt, alloc, 1);
    let made = Arc::try_clone(&rings.made).expect(&rt, "a count of its users");
    let shared = shared_over(&rt, alloc, book_of(&rt, alloc, 1, 3), rings, OneWord);
    let camera = recording(rt, alloc, &shared);
    let want = joined(&rt, alloc, &[FORBIDDEN; 2]);
    for conn in 2..4 {
        let said = joined(&rt, alloc, &[ANNOUNCE; 2]);
        let told = told_by(rt, alloc, &shared, conn, said, Still);
        assert!(rt; told.as_slice() == want.as_slice(), "{conn}");
    }
    assert!(rt; made.load(Ordering::SeqCst) == 2);
    camera_pauses(&rt, alloc, camera);
}
