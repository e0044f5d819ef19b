//! What the thread of a connection does.
use crate::closing_reads::ClosingReads;
use crate::connection_clock::{ConnectionClock, Watch};
use crate::limits::SETUP_WAIT;
use crate::outgoing::Outgoing;
use crate::serving::Connection;
use crate::shared::Shared;
use admission::{Gate, Rights};
use interleaved::{Sink, Source};
use publisher::InStop;
use relay_accounts::{ConnectionEnd, Outcome, status_of};
use relay_fanout::{Maker, SendSide};
use relay_log::Events;
use rtsp_message::{Intake, Reply, Request, Status};
use session_state::{Act, Method, Moments, Words, read_method};
use sockets::HangUp;
use std::alloc::Global;
use std::sync::{Arc, Wait};
use std::thread::Threads;
use std::time::Clock;

/// Serves an open connection, which has these rights: answers its requests in order, publishes what comes in while it records, and
/// sends what its seat takes while it plays. Ends when the peer sends nothing more, at a fault, at a failed read or write or if it
/// is out of memory, and hangs the connection up in the book. Its session expires if the connection wasn't heard for 60 seconds.
pub fn run_connection<R, M, V, G, S, W, H, N>(
    rt: R,
    alloc: Global,
    shared: Arc<Shared<M, V, G>, Global>,
    conn: u64,
    mut reader: S,
    outgoing: Outgoing<M::Out, W, H>,
    events: Events<R>,
    clock: ConnectionClock<N>,
    rights: Rights,
) -> Outcome
where
    R: Threads + Wait + Clock + Copy + Send + 'static,
    M: Maker + Drop,
    M::Out: 'static,
    V: Words + Drop,
    G: Gate + Drop,
    S: Source + Drop,
    W: Sink + Drop + Send + 'static,
    H: HangUp + Drop + Send + Sync + 'static,
    N: Moments + Drop,
{
    let Outgoing {
        writing,
        shutdown,
        writers,
    } = outgoing;
    let player = match Arc::new(alloc, SendSide::new(writing, shutdown)) {
        Ok(player) => player,
        Err(refused) => {
            let watch = clock.watch();
            turn_away(&rt, &shared, conn, &refused.value, &mut reader, watch);
            return Outcome::without_requests(ConnectionEnd::OutOfMemory);
        }
    };
    let mut connection = Connection::new(
        rt, alloc, shared, player, writers, conn, events, clock, rights,
    );
    let end = connection.run(reader);
    Outcome {
        end,
        counts: connection.counts,
        has_account: connection.has_account,
        part: connection.part.take(),
    }
}

impl<R, M, V, G, W, H, N> Connection<R, M, V, G, W, H, N>
where
    R: Threads + Wait + Clock + Copy + Send + 'static,
    M: Maker + Drop,
    M::Out: 'static,
    V: Words + Drop,
    G: Gate + Drop,
    W: Sink + Drop + Send + 'static,
    H: HangUp + Drop + Send + Sync + 'static,
    N: Moments + Drop,
{
    /// Serves from the first request to the hang-up.
    fn run<S: Source + Drop>(&mut self, reader: S) -> ConnectionEnd {
        let mut intake = Intake::new(self.alloc, reader);
        let end = self.serve(&mut intake);
        self.hang_up(end, &mut intake.into_source())
    }

    /// Answers request after request.
    fn serve<S: Source + Drop>(&mut self, intake: &mut Intake<S>) -> ConnectionEnd {
        let rt = self.rt;
        for _ in rt.forever() {
            match self.serve_next(intake) {
                Ok(()) => {}
                // A peer may close right after its TEARDOWN.
                Err(ConnectionEnd::ReadFailed | ConnectionEnd::WriteFailed) if self.torn_down => {
                    return ConnectionEnd::Done;
                }
                Err(end) => return end,
            }
        }
        unreachable!()
    }

    /// Answers the next request, or returns how the connection ends if there is none.
    fn serve_next<S: Source + Drop>(
        &mut self,
        intake: &mut Intake<S>,
    ) -> Result<(), ConnectionEnd> {
        match self.next_message(intake) {
            InStop::Message(request) => self.answer(&request),
            InStop::End => Err(ConnectionEnd::Done),
            InStop::ReadFailed => Err(self.read_failure()),
            InStop::Fault(fault) => {
                self.write_last(status_of(fault));
                Err(ConnectionEnd::StreamFault(fault))
            }
            InStop::OutOfMemory => {
                self.write_last(Status::ServiceUnavailable);
                Err(ConnectionEnd::OutOfMemory)
            }
        }
    }

    /// Answers a request, and does what the answer asks for. A player whose session expired while it played gets 454, and its
    /// connection ends: it would wait for frames for ever.
    fn answer(&mut self, request: &Request) -> Result<(), ConnectionEnd> {
        self.torn_down = false;
        let now = self.clock.now();
        self.expire(now)?;
        // Between reads, too: one read may bring more requests than are answered in a minute.
        if self.clock.watch().is_unset(now, SETUP_WAIT) {
            return Err(ConnectionEnd::NotSetUp);
        }
        self.clock.watch().heard.note();
        let status = self.answer_at(request, now)?;
        self.note_session();
        if self.is_stranded && status == Status::SessionNotFound {
            return Err(ConnectionEnd::Expired);
        }
        Ok(())
    }

    /// Answers a request that came at this moment. Returns the status of its reply.
    fn answer_at(&mut self, request: &Request, now: u64) -> Result<Status, ConnectionEnd> {
        if let Some(status) = self.barred(request) {
            return self.refuse(request, status);
        }
        match self.ask(request, now) {
            Ok((answer, publishing)) => {
                let status = answer.reply.status;
                self.note_answer(request, answer.act, &answer.reply);
                self.carry_out(answer, publishing)?;
                Ok(status)
            }
            Err(_) => self.refuse(request, Status::ServiceUnavailable),
        }
    }

    /// Refuses a request that the book wasn't asked, or had no memory to answer.
    fn refuse(&mut self, request: &Request, status: Status) -> Result<Status, ConnectionEnd> {
        self.events.refused(&self.rt, self.alloc, request, status);
        self.write_refusal(request, status)?;
        Ok(status)
    }

    /// Notes what an answer says of the connection, and reports what it refuses.
    fn note_answer(&mut self, request: &Request, act: Act, reply: &Reply) {
        self.torn_down = reply.status == Status::Ok
            && read_method(request.method.as_slice()) == Some(Method::Teardown);
        if act == Act::Open {
            self.events
                .announced(&self.rt, self.alloc, request, &self.counts);
        }
        if reply.status != Status::Ok {
            self.events
                .refused(&self.rt, self.alloc, request, reply.status);
        }
    }
}

/// Writes 503 to a connection for which there is no memory, and hangs it up in the book.
fn turn_away<R, M, V, G, S, W, H>(
    rt: &R,
    shared: &Shared<M, V, G>,
    conn: u64,
    player: &SendSide<M::Out, W, H>,
    reader: &mut S,
    watch: &Watch,
)
where
    R: Wait,
    M: Maker + Drop,
    V: Drop,
    G: Drop,
    S: Source,
    W: Sink + Drop,
    H: HangUp + Drop,
{
    let _ = player.write_plain(rt, &shared.wake_signal, Status::ServiceUnavailable, None);
    let _ = shared.book.lock(rt).hangup(conn);
    ClosingReads::of(watch).close_behind(&player.shutdown, reader);
}
