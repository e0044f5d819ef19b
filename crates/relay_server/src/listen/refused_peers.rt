//! Peers that were refused and stay a moment, and the thread that closes them.
mod state;

use crate::limits::{REFUSED_READS, REFUSED_STAYS};
use interleaved::{Reading, Source, Writing, write_all};
use log::Log;
use relay_log::{Due, Refusal, Refusing};
use rtsp_message::{Status, put_plain};
use sockets::{HangUp, Socket};
use state::{Leaver, NextDue, State};
use std::alloc::{AllocError, Global};
use std::net::{SocketAddr, TcpStream};
use std::sync::{Arc, Mutex, Wait};
use std::time::Clock;

/// The peers that were refused and stay a moment, so that they read why.
///
/// The thread that accepts and those of connections from a proxy put them in, and one thread closes them, which also writes the rows of
/// refusals. The lock is held for a change of the list alone, and no other is taken meanwhile.
pub(super) struct RefusedPeers {
    refusing: Arc<Refusing, Global>,
    leaving: Mutex<State<Socket>>,
}

impl Drop for RefusedPeers {
    fn drop(self) {
        let RefusedPeers {
            refusing: _,
            leaving: _,
        } = self;
    }
}

impl RefusedPeers {
    /// None was refused. They are counted in `refusing`.
    pub(super) fn new(
        alloc: Global,
        refusing: Arc<Refusing, Global>,
    ) -> Result<RefusedPeers, AllocError> {
        let leaving = State::new(alloc)?;
        Ok(RefusedPeers {
            refusing,
            leaving: Mutex::new(leaving),
        })
    }

    /// Writes 503 to a peer, and lets it stay a moment. Never waits.
    pub(super) fn refuse<R: Wait + Clock>(
        &self,
        rt: &R,
        why: Refusal,
        peer: SocketAddr,
        socket: Socket,
    ) {
        write_unavailable(socket.stream());
        let due = self.refusing.now(rt).saturating_add(REFUSED_STAYS);
        let first = self.leaving.lock(rt).put(socket, due);
        // After it is there: the thread that closes it looks for it at the moment that is set here.
        self.refusing.count_peer(rt, why, peer, due);
        if let Some(first) = first {
            close(first.peer);
        }
    }

    /// Closes each refused peer in its time, and reports once a minute how many were refused. Returns once no peer is refused any
    /// more and all are closed.
    pub(super) fn close_all<R: Wait + Clock>(&self, rt: &R, lines: &impl Log) {
        let mark = &self.refusing.counts().refusing;
        for _ in rt.forever() {
            mark.look();
            let due = self.refusing.next(rt);
            mark.raise();
            match due {
                Due::Moment => self.close_first(rt),
                Due::Row(row) => row.write(lines),
                Due::End => return,
            }
        }
    }

    /// Closes the first peer if its moment has come, and sets the moment of the next one.
    fn close_first<R: Wait + Clock>(&self, rt: &R) {
        let (first, next) = self.take_first(rt, self.refusing.now(rt));
        next.set(rt, &self.refusing);
        if let Some(first) = first {
            close(first.peer);
        }
    }

    /// Takes the first peer out if its moment has come. The lock is free when this returns: so no refusal waits while the peer is
    /// read and closed.
    fn take_first(&self, rt: &impl Wait, now: u64) -> (Option<Leaver<Socket>>, NextDue) {
        self.leaving.lock(rt).take_due(now)
    }
}

/// Writes the text of a refusal, and then the end. Nothing is waited for: a new socket has room for the text.
pub(super) fn write_unavailable(stream: &TcpStream) {
    let _ = stream.set_nonblocking(true);
    let mut text = [0; 128];
    let len = put_plain(&mut text, Status::ServiceUnavailable, None);
    let _ = write_all(&mut Writing::new(stream), &text[..len]);
    stream.close_writes();
}

/// Reads what a peer has sent, and closes.
fn close(socket: Socket) {
    let mut source = Reading::new(socket);
    let mut buf = [0; 16_384];
    for _ in 0..REFUSED_READS {
        match source.read(&mut buf) {
            Ok(count) if count > 0 => {}
            _ => return,
        }
    }
}
