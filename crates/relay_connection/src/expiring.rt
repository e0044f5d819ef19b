//! What is done if a session has expired, or its connection was silent for too long.
use crate::serving::Connection;
use admission::Gate;
use interleaved::Sink;
use relay_accounts::ConnectionEnd;
use relay_fanout::Maker;
use session_state::{Act, Moments, Words};
use sockets::HangUp;
use std::sync::Wait;
use std::thread::Threads;
use std::time::Clock;

impl<R, M, V, G, W, H, N> Connection<R, M, V, G, W, H, N>
where
    R: Threads + Wait + Clock + Copy + Send + 'static,
    M: Maker + Drop,
    M::Out: 'static,
    V: Words + Drop,
    G: Gate + Drop,
    W: Sink + Drop + Send + 'static,
    H: HangUp + Drop + Send + Sync + 'static,
    N: Moments + Drop,
{
    /// Ends the session if it has expired by this moment, and stops its frames or ends its mount. The connection goes on.
    pub(crate) fn expire(&mut self, now: u64) -> Result<(), ConnectionEnd> {
        let last = self.clock.watch().heard.last();
        let mut book = self.shared.book.lock(&self.rt);
        let act = book.expire(self.conn, last, now);
        // It may have expired before, while the peer was silent.
        let has_session = book.session_of(self.conn).is_some();
        drop(book);
        if !has_session {
            self.forget_session();
        }
        let stopped = match act {
            Some(Act::Stop { .. }) => {
                self.is_stranded = true;
                self.stop_playing()
            }
            Some(Act::End) => {
                self.end_mount();
                Ok(())
            }
            Some(Act::None | Act::Open | Act::Play { .. } | Act::Record) | None => Ok(()),
        };
        if !has_session && self.left.is_none() {
            self.close_account();
        }
        stopped
    }

    /// How the connection ends whose reads have failed: by its silence, if that made them fail.
    pub(crate) fn read_failure(&self) -> ConnectionEnd {
        self.clock
            .watch()
            .end(&self.rt)
            .unwrap_or(ConnectionEnd::ReadFailed)
    }
}
