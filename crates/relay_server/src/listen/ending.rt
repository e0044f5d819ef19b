//! What is done when a connection has ended.
use crate::listen::stopping::{Entered, Stopping};
use admission::{LiveSockets, Peers};
use relay_accounts::{ConnectionEnd, Outcome};
use relay_log::{Lines, Refusing, tell_end, tell_last_account};
use std::alloc::Global;
use std::net::SocketAddr;
use std::sync::{Arc, Wait};
use std::time::Clock;

/// What is done when a connection has ended.
pub(super) struct Ending<R> {
    pub(super) lines: Arc<Lines<R>, Global>,
    pub(super) refusing: Arc<Refusing, Global>,
    pub(super) live: Arc<LiveSockets, Global>,
    pub(super) peers: Arc<Peers, Global>,
    pub(super) stopping: Arc<Stopping, Global>,
    pub(super) conn: u64,
    pub(super) peer: SocketAddr,
    pub(super) is_verbose: bool,
}

impl<R: Drop> Drop for Ending<R> {
    fn drop(self) {
        let Ending {
            lines: _,
            refusing: _,
            live: _,
            peers: _,
            stopping: _,
            conn: _,
            peer: _,
            is_verbose: _,
        } = self;
    }
}

impl<R: Wait + Clock + Drop> Ending<R> {
    /// Logs how the connection ended and what its packets came to. A server that stops has ended it itself.
    pub(super) fn end(self, rt: &R, outcome: Outcome) {
        let mut outcome = outcome;
        if self.stopping.is_stopped() {
            outcome.end = ConnectionEnd::Done;
        }
        if self.refusing.may_report_end(rt, self.peer, outcome.end) {
            tell_end(&*self.lines, self.peer, self.conn, &outcome);
        }
        tell_last_account(&*self.lines, self.peer, &outcome, self.is_verbose);
        let entered = Entered::of_thread(self.conn);
        take_out(rt, &self.live, &self.peers, &self.stopping, entered);
    }
}

/// A connection has a thread no longer, or has got none. It is counted until the last: then the server may end.
pub(super) fn take_out(
    rt: &impl Wait,
    live: &LiveSockets,
    peers: &Peers,
    stopping: &Stopping,
    entered: Entered,
) {
    let (counted, peer) = entered.open();
    let socket = peers.remove(rt, peer);
    let removed = live.remove(rt, socket);
    stopping.leave(counted, removed);
}
