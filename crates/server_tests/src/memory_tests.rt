//! What holds if a connection is refused memory. `tools/refuse-memory` runs this once for each request for memory that it
//! makes, with that one refused.
use crate::expiry_tests::replies;
use crate::moments::Still;
use crate::rings::Rings;
use crate::serving::{Served, book_of, serve_here, shared_over};
use crate::words::OneWord;
use interleaved::ListSource;
use relay_accounts::ConnectionEnd;
use relay_connection::ConnectionClock;
use relay_log::Events;
use std::sync::Arc;

/// Two requests.
const ASKED: &[u8] = b"OPTIONS * RTSP/1.0\nCSeq: 1\n\nOPTIONS * RTSP/1.0\nCSeq: 2\n\n";

/// Each request is answered, with 503 if its memory was refused, or the connection ends. Either way its place is free again.
#[test]
fn a_connection_that_is_refused_memory_leaves_its_place(rt: HostRuntime) {
    let alloc = rt.alloc();
    let book = book_of(&rt, alloc, 1, 0);
    book.lock(&rt).connect().ok().expect(&rt, "memory");
    let theirs = Arc::try_clone(&book).expect(&rt, "a count of its users");
    let shared = shared_over(&rt, alloc, theirs, Rings::of(&rt, alloc, 1), OneWord);
    let connection_clock = ConnectionClock::new(alloc, Still).expect(&rt, "memory");
    let said = Vec::from_slice(alloc, ASKED).expect(&rt, "memory");
    let source = ListSource::new(said, 7, None);
    let Served { outcome, told } = serve_here(
        rt,
        rt,
        alloc,
        &shared,
        1,
        source,
        Events::none(),
        connection_clock,
    );
    let good = replies(told.as_slice(), b"RTSP/1.0 200 ");
    let refused = replies(told.as_slice(), b"RTSP/1.0 503 ");
    assert!(rt; refused <= 1);
    match outcome.end {
        ConnectionEnd::Done => assert!(rt; good.saturating_add(refused) == 2),
        // What is written is kept by this test, which may be refused memory, too.
        ConnectionEnd::OutOfMemory | ConnectionEnd::WriteFailed => assert!(rt; good < 2),
        end => panic!(rt; "{end}"),
    }
    assert!(rt; !book.lock(&rt).is_open(1));
}
