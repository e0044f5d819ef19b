//! How replies are written, and the last text of a connection. Each takes what has to be before it.
ghost use Rattle.std.specs.Prelude.{◌≡◌, ◌↔◌, IsOk, Err, OnErr};
ghost use Rattle.relay_accounts.specs.declared.ending.ConnectionEnd.TheVariants.{WriteFailed};

use crate::act_done::ActDone;
use crate::limited_waits::LimitedWaits;
use crate::serving::Connection;
use admission::Gate;
use interleaved::{Failed, Sink};
use relay_accounts::ConnectionEnd;
use relay_fanout::Maker;
use rtsp_message::{Reply, Request, Status, put_reply};
use session_state::{Moments, Words};
use sockets::HangUp;
use std::sync::Wait;
use std::thread::Threads;
use std::time::Clock;

/// A reply was written. Nothing else makes it, so that the frames of a PLAY, which take it, come after their reply.
#[derive(Drop)]
pub(crate) struct ReplyWritten(());

impl ReplyWritten {
    /// A write has ended so.
    fn of(written: Result<(), Failed>) -> Result<ReplyWritten, ConnectionEnd>
        ensures ok { IsOk result ↔ IsOk written }
        ensures err { OnErr result (result ≡ Err WriteFailed) }
    {
        match written {
            Ok(()) => Ok(ReplyWritten(())),
            Err(_) => Err(ConnectionEnd::WriteFailed),
        }
    }
}

impl<R, M, V, G, W, H, N> Connection<R, M, V, G, W, H, N>
where
    R: Threads + Wait + Clock + Copy + Send + 'static,
    M: Maker + Drop,
    M::Out: 'static,
    V: Words + Drop,
    G: Gate + Drop,
    W: Sink + Drop + Send + 'static,
    H: HangUp + Drop + Send + Sync + 'static,
    N: Moments + Drop,
{
    /// Writes the reply to a request, after what the request has begun or ended for others.
    pub(crate) fn write_reply(
        &mut self,
        reply: &Reply,
        _done: ActDone,
    ) -> Result<ReplyWritten, ConnectionEnd> {
        let mut text = Vec::new(self.alloc);
        if put_reply(&mut text, reply).is_err() {
            return self.write_plain(Status::ServiceUnavailable, reply.cseq);
        }
        let written = self
            .player
            .write(&self.rt, &self.shared.wake_signal, text.as_slice());
        self.settle_seat();
        ReplyWritten::of(written)
    }

    /// Writes the reply to a request of which the book wasn't asked, or had no memory to answer.
    pub(crate) fn write_refusal(
        &mut self,
        request: &Request,
        status: Status,
    ) -> Result<ReplyWritten, ConnectionEnd> {
        self.write_plain(status, request.cseq)
    }

    /// Writes the last text of the connection, which waits for no longer than a moment.
    pub(crate) fn write_last_text(&mut self, status: Status, _limited: LimitedWaits) {
        let _ = self.write_plain(status, None);
    }

    fn write_plain(
        &mut self,
        status: Status,
        cseq: Option<u32>,
    ) -> Result<ReplyWritten, ConnectionEnd> {
        let written = self
            .player
            .write_plain(&self.rt, &self.shared.wake_signal, status, cseq);
        self.settle_seat();
        ReplyWritten::of(written)
    }
}
