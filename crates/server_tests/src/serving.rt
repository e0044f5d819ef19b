//! Connections over devices in memory, for tests.
use crate::devices::{Flag, Manner, Staged, Written, flag};
use crate::rings::{Owned, Rings};
use crate::words::OneWord;
use admission::{OpenGate, Rights};
use interleaved::{ListSource, Reading, Sink, Source, Writing};
use packet_ring::Pass;
use relay_accounts::{ConnectionEnd, Counts, Outcome};
use relay_connection::{ConnectionClock, Outgoing, Shared, SharedBook, run_connection};
use relay_fanout::{Seat, WritingSide};
use relay_log::Events;
use session_lock::Book;
use session_state::{Moments, Words};
use std::alloc::Global;
use std::collections::hash_map::RandomState;
use std::process::Abort;
use std::random::RandomSource;
use std::sync::atomic::Ordering;
use std::sync::{Arc, Mutex, Wait};
use std::thread;
use std::thread::{JoinHandle, Threads};
use std::time::Clock;
use test_kit::{Bytes, Open, no_counts};

/// What connections over rings share.
pub(crate) type SharedRings<V> = Arc<Shared<Rings, V, OpenGate>, Global>;

/// A book of mounts with `seats` seats, and of `connections` connections.
pub(crate) fn book_of<R: RandomSource + Wait + Abort>(
    rt: &R,
    alloc: Global,
    seats: usize,
    connections: u32,
) -> SharedBook<Seat<Owned<Pass>>> {
    let hasher = RandomState::new(rt).expect(rt, "random bytes");
    let book = Mutex::new(Book::new(alloc, seats.min(1024), hasher));
    let book = Arc::new(alloc, book).expect(rt, "memory");
    for _ in 0..connections {
        let _ = book.lock(rt).connect();
    }
    book
}

/// What the connections of a book share.
pub(crate) fn shared_over<V: Words + Drop>(
    rt: &impl Abort,
    alloc: Global,
    book: SharedBook<Seat<Owned<Pass>>>,
    rings: Rings,
    words: V,
) -> SharedRings<V> {
    let counts = no_counts(alloc).expect(rt, "memory");
    let shared = Shared::new(alloc, rings, book, words, OpenGate, None, counts);
    Arc::new(alloc, shared.expect(rt, "memory")).expect(rt, "memory")
}

/// A line to a peer that takes `room` bytes.
pub(crate) fn line_to<R: Wait + Clock + Abort + Drop>(
    rt: R,
    alloc: Global,
    bytes: &Bytes,
    room: usize,
) -> WritingSide<Writing<Written<R>>> {
    line_in(rt, alloc, bytes, Manner::Room(room))
}

/// A line to a peer that takes what is written in this manner.
pub(crate) fn line_in<R: Wait + Clock + Abort + Drop>(
    rt: R,
    alloc: Global,
    bytes: &Bytes,
    manner: Manner,
) -> WritingSide<Writing<Written<R>>> {
    let bytes = Arc::try_clone(bytes).expect(&rt, "a count of its users");
    WritingSide::new(alloc, Writing::new(Written { rt, bytes, manner }))
}

/// What a test and a connection share: what is written to its peer, and the word that lets the peer on.
#[derive(Drop)]
pub(crate) struct Watch {
    pub(crate) written: Bytes,
    pub(crate) let_on: Flag,
}

impl Watch {
    /// Nothing is written yet, and the peer waits.
    pub(crate) fn new(rt: &impl Abort, alloc: Global) -> Watch {
        let written = Arc::new(alloc, Mutex::new(Vec::new(alloc))).expect(rt, "memory");
        let let_on = flag(rt, alloc);
        Watch { written, let_on }
    }
}

/// A connection that is served in a thread of its own.
#[derive(Drop)]
pub(crate) struct Serving {
    pub(crate) watch: Watch,
    pub(crate) thread: JoinHandle<Outcome>,
}

impl Serving {
    /// Lets the peer on, and waits for the connection's end. Returns how it ended, what was counted and what was written.
    pub(crate) fn end<R: Threads>(self, rt: &R) -> (ConnectionEnd, Counts, Bytes) {
        let Serving { watch, thread } = self;
        let Watch { written, let_on } = watch;
        let_on.store(true, Ordering::SeqCst);
        let outcome = thread.join(rt);
        (outcome.end, outcome.counts, written)
    }
}

/// Replies and frames go out on this line, frames by a thread of the connection's own.
pub(crate) fn sent_on<T, W: Sink>(line: WritingSide<W>) -> Outgoing<T, W, Open> {
    Outgoing {
        writing: line,
        shutdown: Open,
        writers: None,
    }
}

/// How a connection has ended, and what it was sent.
#[derive(Drop)]
pub(crate) struct Served {
    pub(crate) outcome: Outcome,
    pub(crate) told: Vec<u8>,
}

/// Serves a connection in this thread, with this runtime; `host` has its devices. Its peer sends what this source gives, and takes all that is written.
pub(crate) fn serve_here<R, K, S, N>(
    host: R,
    rt: K,
    alloc: Global,
    shared: &SharedRings<OneWord>,
    conn: u64,
    source: S,
    events: Events<K>,
    connection_clock: ConnectionClock<N>,
) -> Served
where
    R: Wait + Clock + Abort + Copy + Drop + Send + 'static,
    K: Threads + Wait + Clock + Copy + Drop + Send + 'static,
    S: Source + Drop,
    N: Moments + Drop,
{
    let rights = Rights::all();
    serve_with(
        host,
        rt,
        alloc,
        shared,
        conn,
        source,
        events,
        connection_clock,
        rights,
    )
}

/// The same of a connection that has these rights.
pub(crate) fn serve_with<R, K, S, N>(
    host: R,
    rt: K,
    alloc: Global,
    shared: &SharedRings<OneWord>,
    conn: u64,
    source: S,
    events: Events<K>,
    connection_clock: ConnectionClock<N>,
    rights: Rights,
) -> Served
where
    R: Wait + Clock + Abort + Copy + Drop + Send + 'static,
    K: Threads + Wait + Clock + Copy + Drop + Send + 'static,
    S: Source + Drop,
    N: Moments + Drop,
{
    let bytes = Arc::new(alloc, Mutex::new(Vec::new(alloc))).expect(&host, "memory");
    let line = line_to(host, alloc, &bytes, 10_000);
    let shared = Arc::try_clone(shared).expect(&host, "a count of its users");
    let outcome = run_connection(
        rt,
        alloc,
        shared,
        conn,
        source,
        sent_on(line),
        events,
        connection_clock,
        rights,
    );
    let told = Vec::from_slice(alloc, bytes.lock(&host).as_slice()).expect(&host, "memory");
    Served { outcome, told }
}

/// Returns what a connection is sent that sends this, by such a clock, and closes.
pub(crate) fn told_by<R, N>(
    rt: R,
    alloc: Global,
    shared: &SharedRings<OneWord>,
    conn: u64,
    said: Vec<u8>,
    clock: N,
) -> Vec<u8>
where
    R: Threads + Wait + Clock + Abort + Copy + Drop + Send + 'static,
    N: Moments + Drop,
{
    told_until(rt, alloc, shared, conn, said, clock, ConnectionEnd::Done)
}

/// The same for a connection with this end.
pub(crate) fn told_until<R, N>(
    rt: R,
    alloc: Global,
    shared: &SharedRings<OneWord>,
    conn: u64,
    said: Vec<u8>,
    clock: N,
    end: ConnectionEnd,
) -> Vec<u8>
where
    R: Threads + Wait + Clock + Abort + Copy + Drop + Send + 'static,
    N: Moments + Drop,
{
    let connection_clock = ConnectionClock::new(alloc, clock).expect(&rt, "memory");
    let source = ListSource::new(said, 7, None);
    let events = Events::none();
    let Served { outcome, told } = serve_here(
        rt,
        rt,
        alloc,
        shared,
        conn,
        source,
        events,
        connection_clock,
    );
    assert!(rt; outcome.end == end);
    told
}

/// Serves a connection in a thread of its own.
pub(crate) fn serve_in_thread<R, V>(
    rt: R,
    alloc: Global,
    shared: &SharedRings<V>,
    conn: u64,
    source: Staged<R>,
    line: WritingSide<Writing<Written<R>>>,
) -> JoinHandle<Outcome>
where
    R: Threads + Wait + Clock + Abort + Copy + Drop + Send + 'static,
    V: Words + Drop + Send + 'static,
{
    let theirs = Arc::try_clone(shared).expect(&rt, "a count of its users");
    let connection_clock = ConnectionClock::new(alloc, source.clock).expect(&rt, "memory");
    thread::spawn(&rt, move || {
        run_connection(
            rt,
            alloc,
            theirs,
            conn,
            Reading::new(source),
            sent_on(line),
            Events::none(),
            connection_clock,
            Rights::all(),
        )
    })
    .expect(&rt, "a thread")
}

/// Serves connection 1, whose peer sends the first part, and the second after it is let on.
pub(crate) fn serve_camera<R, V>(
    rt: R,
    alloc: Global,
    shared: &SharedRings<V>,
    first: Vec<u8>,
    then: Vec<u8>,
) -> Serving
where
    R: Threads + Wait + Clock + Abort + Copy + Drop + Send + 'static,
    V: Words + Drop + Send + 'static,
{
    let watch = Watch::new(&rt, alloc);
    let let_on = Arc::try_clone(&watch.let_on).expect(&rt, "a count of its users");
    let source = Staged::new(rt, first, then, let_on);
    serve_source(rt, alloc, shared, watch, source)
}

/// Serves connection 1, whose peer sends what this source gives.
pub(crate) fn serve_source<R, V>(
    rt: R,
    alloc: Global,
    shared: &SharedRings<V>,
    watch: Watch,
    source: Staged<R>,
) -> Serving
where
    R: Threads + Wait + Clock + Abort + Copy + Drop + Send + 'static,
    V: Words + Drop + Send + 'static,
{
    let line = line_to(rt, alloc, &watch.written, 1000);
    let thread = serve_in_thread(rt, alloc, shared, 1, source, line);
    Serving { watch, thread }
}
