//! What becomes of the packets of a player that is too slow, and of its mount.
use crate::connection_tests::{ANNOUNCE, SETUP};
use crate::devices::{Flag, Manner, Staged, Written, flag, joined};
use crate::rings::Rings;
use crate::serving::{
    Serving, SharedRings, Watch, book_of, line_in, serve_in_thread, serve_source, shared_over,
};
use crate::words::CountedWords;
use interleaved::Writing;
use relay_accounts::ConnectionEnd;
use relay_fanout::WritingSide;
use std::alloc::{AllocError, Global};
use std::process::Abort;
use std::sync::atomic::Ordering;
use std::sync::{Arc, Wait};
use std::thread::Threads;
use std::time::Clock;
use test_kit::{Count, FRAME, count, has_come};

/// In the session that the second word began.
const RECORD: &[u8] = b"RECORD rtsp://h/a RTSP/1.0\nCSeq: 3\nSession: 0000000100000002\n\n";

pub(crate) const SETUP_OUT: &[u8] =
    b"SETUP rtsp://h/a/trackID=0 RTSP/1.0\nCSeq: 2\nTransport: RTP/AVP/TCP;interleaved=0-1\n\n";

/// In the session that the fourth word began.
const PLAY: &[u8] = b"PLAY rtsp://h/a RTSP/1.0\nCSeq: 3\nSession: 0000000200000004\n\n";

/// The reply to RECORD.
const RECORDING: &[u8] = b"RTSP/1.0 200 OK\r\nCSeq: 3\r\nSession: 0000000100000002\r\n\r\n";

/// The request of a publisher after its packets, and the end of the reply.
const OPTIONS: &[u8] = b"OPTIONS * RTSP/1.0\nCSeq: 4\n\n";

pub(crate) const PUBLIC_END: &[u8] = b", GET_PARAMETER\r\n\r\n";

/// The last packet.
pub(crate) const LAST: &[u8] = b"\x24\x00\x00\x0c\x80\x60\x00\x08\x00\x00\x23\x28\x00\x00\x00\x00";

/// How many packets are published: more than are taken at once and a ring of four keeps.
pub(crate) const PACKETS: u64 = 40;

/// More bytes than the reply to a player's SETUP has, and fewer than this and the reply to its PLAY.
pub(crate) const SET_UP: usize = 150;

/// Returns the frames of a publisher, and its OPTIONS after them.
fn packets(alloc: Global) -> Result<Vec<u8>, AllocError> {
    let mut all = Vec::new(alloc);
    for _ in 1..PACKETS {
        all.extend_from_slice(FRAME)?;
    }
    all.extend_from_slice(LAST)?;
    all.extend_from_slice(OPTIONS)?;
    Ok(all)
}

/// A player that closes after it is let on.
fn player<R: Abort + Drop>(rt: R, alloc: Global, let_on: &Flag) -> Staged<R> {
    let said = joined(&rt, alloc, &[SETUP_OUT, PLAY]);
    let let_on = Arc::try_clone(let_on).expect(&rt, "a count of its users");
    Staged::new(rt, said, Vec::new(alloc), let_on)
}

/// Whether a write waits for a player, when it reads on, and how many writes were made to it.
#[derive(Drop)]
pub(crate) struct Stall {
    pub(crate) waits: Flag,
    pub(crate) read: Flag,
    pub(crate) writes: Count,
}

impl Stall {
    /// It doesn't read yet.
    pub(crate) fn new(rt: &impl Abort, alloc: Global) -> Stall {
        Stall {
            waits: flag(rt, alloc),
            read: flag(rt, alloc),
            writes: count(alloc).expect(rt, "memory"),
        }
    }

    pub(crate) fn end(&self) {
        self.read.store(true, Ordering::SeqCst);
    }
}

/// The line to a player that reads nothing after the reply to its PLAY until it is let on.
pub(crate) fn stalled_line<R: Wait + Clock + Abort + Drop>(
    rt: R,
    alloc: Global,
    watch: &Watch,
    stall: &Stall,
) -> WritingSide<Writing<Written<R>>> {
    let let_on = Arc::try_clone(&stall.read).expect(&rt, "a count of its users");
    let writes = Arc::try_clone(&stall.writes).expect(&rt, "a count of its users");
    let manner = Manner::Held {
        free: SET_UP,
        waits: Arc::try_clone(&stall.waits).expect(&rt, "a count of its users"),
        let_on,
        writes,
    };
    line_in(rt, alloc, &watch.written, manner)
}

/// Connection 1, which records. After it is let on it sends its packets, and then closes; if `stay` is given, after that is
/// set.
pub(crate) fn recording<R>(
    rt: R,
    alloc: Global,
    shared: &SharedRings<CountedWords>,
    stay: Option<&Flag>,
) -> Serving
where
    R: Threads + Wait + Clock + Abort + Copy + Drop + Send + 'static,
{
    let first = joined(&rt, alloc, &[ANNOUNCE, SETUP, RECORD]);
    let then = packets(alloc).expect(&rt, "memory");
    let watch = Watch::new(&rt, alloc);
    let let_on = Arc::try_clone(&watch.let_on).expect(&rt, "a count of its users");
    let stay = Arc::try_clone(stay.unwrap_or(&let_on)).expect(&rt, "a count of its users");
    let source = Staged::new(rt, first, then, let_on).until(stay);
    let camera = serve_source(rt, alloc, shared, watch, source);
    assert!(rt; has_come(&rt, &camera.watch.written, 0, RECORDING));
    assert!(rt; shared.recorded(&rt) == 1);
    camera
}

/// Connection 2, which plays, and reads nothing more until its stall ends. After it is let on it closes.
pub(crate) fn playing<R>(
    rt: R,
    alloc: Global,
    shared: &SharedRings<CountedWords>,
    stall: &Stall,
) -> Serving
where
    R: Threads + Wait + Clock + Abort + Copy + Drop + Send + 'static,
{
    let watch = Watch::new(&rt, alloc);
    let source = player(rt, alloc, &watch.let_on);
    let line = stalled_line(rt, alloc, &watch, stall);
    let thread = serve_in_thread(rt, alloc, shared, 2, source, line);
    assert!(rt; has_come(&rt, &watch.written, SET_UP, b"\r\n\r\n"));
    Serving { watch, thread }
}

/// Returns how many packets a publisher has published up to its end, after which its mount isn't recorded.
pub(crate) fn published<R: Threads + Wait + Abort>(
    rt: &R,
    shared: &SharedRings<CountedWords>,
    camera: Serving,
) -> u64 {
    let (end, came, _written) = camera.end(rt);
    assert!(rt; end == ConnectionEnd::Done && came.published > 30);
    assert!(rt; shared.recorded(rt) == 0);
    came.published
}

/// Returns how many packets a player was sent or has lost up to its end. What it was sent was written after `replies` bytes of
/// replies.
pub(crate) fn accounted<R: Threads + Wait + Abort>(
    rt: &R,
    player: Serving,
    replies: usize,
) -> Option<u64> {
    let (end, counts, written) = player.end(rt);
    assert!(rt; end == ConnectionEnd::Done && counts.lost > 0);
    let frames = written.lock(rt).len().saturating_sub(replies) / LAST.len();
    assert!(rt; frames as u64 == counts.sent && counts.unsent == 0);
    counts.sent.checked_add(counts.lost)
}

/// Connection 1 publishes while connection 2 reads nothing; then 2 reads to the end of the mount, and closes. Each
/// packet was sent, or is counted as lost; each request had a word of its own; and the mount that has ended
/// isn't among those that are recorded.
#[test]
fn a_slow_players_account_adds_up(rt: HostRuntime) {
    let alloc = rt.alloc();
    let shared = shared_over(
        &rt,
        alloc,
        book_of(&rt, alloc, 1, 2),
        Rings::of(&rt, alloc, 1),
        CountedWords(1),
    );
    let camera = recording(rt, alloc, &shared, None);
    let stall = Stall::new(&rt, alloc);
    let player = playing(rt, alloc, &shared, &stall);
    let replies = player.watch.written.lock(&rt).len();
    let published = published(&rt, &shared, camera);
    stall.end();
    assert!(rt; has_come(&rt, &player.watch.written, replies, LAST));
    assert!(rt; accounted(&rt, player, replies) == Some(published));
}
