//! The lines of a connection, for tests.
use relay_log::{Events, Lines};
use std::alloc::Global;
use std::net::SocketAddr;
use std::process::Abort;
use std::sync::{Arc, Wait};
use std::time::Clock;
use test_kit::{Kept, no_counts};

/// The beginning and the end of the line that reports a mount's end. Its seconds are between them.
const ENDED: &str = "[INFO  relay_server::events] 10.0.0.1:554: mount a has ended after ";

const ONE_PACKET: &str =
    " s: published 1, pinned 0, too long 0, bad RTP 0, unknown channel 0, no memory 0; sent 0, skipped 0, lost 0, unsent 0; strangers 0";

/// Lines that are written to this runtime.
pub(crate) fn lines_to<R: Drop>(
    rt: &impl Abort,
    alloc: Global,
    kept: Kept<R>,
) -> Arc<Lines<Kept<R>>, Global> {
    let counts = no_counts(alloc).expect(rt, "memory");
    let lines = Lines::new(kept, alloc, counts).expect(rt, "memory");
    Arc::new(alloc, lines).expect(rt, "memory")
}

/// Returns the events of a connection that logs all, in these lines.
pub(crate) fn verbose<R: Clock + Abort, L: Drop>(
    rt: &R,
    alloc: Global,
    lines: &Arc<Lines<L>, Global>,
) -> Events<L> {
    let peer = SocketAddr::from(([10, 0, 0, 1], 554));
    Events::alone(rt, alloc, lines, peer, 1).expect(rt, "memory")
}

/// Returns whether one of these lines reports that the mount of a peer has ended, with one packet.
pub(crate) fn reports_an_end<R: Wait + Clock + Abort>(
    rt: &R,
    kept: &Kept<R>,
    lines: &Lines<Kept<R>>,
) -> bool {
    lines.end();
    lines.write_all();
    let written = kept.lines().expect(rt, "memory");
    written.iter().any(|line| {
        let ended = line.as_str().strip_prefix(ENDED);
        ended.is_some_and(|ended| ended.ends_with(ONE_PACKET))
    })
}
