//! What the thread of a connection is started with.
ghost use Rattle.std.specs.Prelude.{◌≡◌, IfOk};
ghost use Rattle.std.specs.Arc.{arc_value};
ghost use Rattle.std.specs.Option.{option_map};

use crate::listen::ending::Ending;
use crate::listen::proxied::Proxied;
use crate::listen::server::{RingShared, Server, SocketWriters};
use admission::{Gate, Rights};
use interleaved::{Reading, Writing};
use log::Log;
use networks::Address;
use packet_ring::Pass;
use relay_accounts::{Outcome, end_by};
use relay_connection::{ConnectionClock, IdleReader, Outgoing, run_connection};
use relay_fanout::{Maker, Seat, WritingSide};
use relay_log::{Events, Teller};
use session_state::{Moments, Words};
use sockets::{HangUp, SharedSocket, Socket};
use std::alloc::{AllocError, Global};
use std::net::SocketAddr;
use std::sync::{Arc, Wait};
use std::thread::Threads;
use std::time::Clock;

/// What the thread of a connection is started with.
pub(super) struct NewConnection<R, V, G, N> {
    shared: Arc<RingShared<V, G>, Global>,
    conn: u64,
    origin: Origin,
    reader: Reading<IdleReader<R, Seat<Pass>, N, Socket>>,
    writer: Writing<Socket>,
    hang_up: Socket,
    writers: Option<Arc<SocketWriters, Global>>,
    teller: Teller<R>,
    clock: ConnectionClock<N>,
    ending: Ending<R>,
}

/// Where a connection comes from.
#[derive(Drop)]
enum Origin {
    /// Its peer, which may do this.
    Peer(Rights),
    /// A proxy, whose header is read first.
    Proxy(Proxied),
}

impl<R: Drop, V: Drop, G: Drop, N: Drop> Drop for NewConnection<R, V, G, N> {
    fn drop(self) {
        let NewConnection {
            shared: _,
            conn: _,
            origin: _,
            reader: _,
            writer: _,
            hang_up: _,
            writers: _,
            teller: _,
            clock: _,
            ending: _,
        } = self;
    }
}

impl<R, V, G, N> NewConnection<R, V, G, N> {
    /// Returns its number.
    pub(super) fn conn(&self) -> u64
        ensures { result ≡ self.now.conn }
    {
        self.conn
    }
}

impl<R, V, G, N> NewConnection<R, V, G, N>
where
    R: Threads + Wait + Clock + Log + Copy + Send + Sync + 'static,
    V: Words + Drop + Send + 'static,
    G: Gate + Drop + Send + Sync + 'static,
    N: Moments + Copy + Send + Sync + 'static,
{
    /// A connection of the book comes over this socket.
    pub(super) fn new(
        rt: R,
        alloc: Global,
        server: &Server<R, V, G, N>,
        conn: u64,
        socket: &Arc<SharedSocket, Global>,
        peer: SocketAddr,
    ) -> Result<NewConnection<R, V, G, N>, AllocError> {
        let clock = ConnectionClock::new(alloc, server.moments)?;
        let read = Socket::of(socket)?;
        let book = &server.shared.book;
        let idle_reader = IdleReader::new(rt, read, book, conn, &clock, server.idle_policy)?;
        Ok(NewConnection {
            shared: Arc::try_clone(&server.shared)?,
            conn,
            origin: Origin::of(server, conn, socket, peer)?,
            reader: Reading::new(idle_reader),
            writer: Writing::new(Socket::of(socket)?),
            hang_up: Socket::of(socket)?,
            writers: share(&server.writers)?,
            teller: server.teller(conn, peer)?,
            clock,
            ending: server.ending(conn, peer)?,
        })
    }
}

impl<R, V, G, N> NewConnection<R, V, G, N>
where
    R: Threads + Wait + Clock + Log + Copy + Send + Sync + 'static,
    V: Words + Drop,
    G: Gate + Drop,
    N: Moments + Copy + Send + Sync + 'static,
{
    /// Serves the connection, and does what is done at its end. Runs on its thread.
    pub(super) fn run(self, rt: R, alloc: Global) {
        let NewConnection {
            shared,
            conn,
            origin,
            reader,
            writer,
            hang_up,
            writers,
            mut teller,
            clock,
            mut ending,
        } = self;
        let rights = match origin {
            Origin::Peer(rights) => rights,
            Origin::Proxy(proxied) => match proxied.meet(&rt, conn, teller.peer) {
                Ok(client) => {
                    teller.peer = client.peer;
                    ending.peer = client.peer;
                    client.rights
                }
                Err(end) => {
                    let end = end_by(end, hang_up.failure());
                    let _ = shared.book.lock(&rt).hangup(conn);
                    ending.end(&rt, Outcome::without_requests(end));
                    return;
                }
            },
        };
        let outgoing = Outgoing {
            writing: WritingSide::new(alloc, writer),
            shutdown: hang_up,
            writers,
        };
        let events = Events::new(teller);
        let outcome = run_connection(
            rt, alloc, shared, conn, reader, outgoing, events, clock, rights,
        );
        ending.end(&rt, outcome);
    }
}

impl Origin {
    /// A connection comes from this address over this socket.
    fn of<R, V, G, N>(
        server: &Server<R, V, G, N>,
        conn: u64,
        socket: &Arc<SharedSocket, Global>,
        peer: SocketAddr,
    ) -> Result<Origin, AllocError> {
        let Server { access, peers, .. } = server;
        let address = Address::of(peer.ip());
        if access.is_proxy(address) {
            let looks = server.idle_policy.looks;
            let socket = Socket::of(socket)?;
            let proxied = Proxied::new(access, peers, &server.refused, socket, looks)?;
            return Ok(Origin::Proxy(proxied));
        }
        Ok(Origin::Peer(access.rights(peers, conn, address)?))
    }
}

impl<R: Drop, V: Drop, G: Drop, N> Server<R, V, G, N> {
    /// What a connection reports of what comes and leaves.
    fn teller(&self, conn: u64, peer: SocketAddr) -> Result<Teller<R>, AllocError>
        ensures peer { IfOk result (λ teller. (teller.conn ≡ conn) × (teller.peer ≡ peer)) }
        ensures verbose { IfOk result (λ teller. teller.is_verbose ≡ self.now.is_verbose) }
        ensures lines { IfOk result (λ teller. arc_value teller.lines ≡ arc_value self.now.lines) }
        ensures reports { IfOk result (λ teller. option_map arc_value teller.reports ≡ option_map arc_value self.now.reports) }
        ensures published { IfOk result (λ teller. arc_value teller.published ≡ arc_value self.now.published) }
        ensures refusing { IfOk result (λ teller. arc_value teller.refusing ≡ arc_value self.now.refusing) }
    {
        Ok(Teller {
            lines: Arc::try_clone(&self.lines)?,
            peer,
            conn,
            is_verbose: self.is_verbose,
            reports: share(&self.reports)?,
            published: Arc::try_clone(&self.published)?,
            refusing: Arc::try_clone(&self.refusing)?,
        })
    }

    /// What is done when a connection has ended.
    fn ending(&self, conn: u64, peer: SocketAddr) -> Result<Ending<R>, AllocError>
        ensures peer { IfOk result (λ ending. (ending.conn ≡ conn) × (ending.peer ≡ peer)) }
        ensures verbose { IfOk result (λ ending. ending.is_verbose ≡ self.now.is_verbose) }
        ensures lines { IfOk result (λ ending. arc_value ending.lines ≡ arc_value self.now.lines) }
        ensures refusing { IfOk result (λ ending. arc_value ending.refusing ≡ arc_value self.now.refusing) }
        ensures live { IfOk result (λ ending. arc_value ending.live ≡ arc_value self.now.live) }
        ensures peers { IfOk result (λ ending. arc_value ending.peers ≡ arc_value self.now.peers) }
        ensures stopping { IfOk result (λ ending. arc_value ending.stopping ≡ arc_value self.now.stopping) }
    {
        Ok(Ending {
            lines: Arc::try_clone(&self.lines)?,
            refusing: Arc::try_clone(&self.refusing)?,
            live: Arc::try_clone(&self.live)?,
            peers: Arc::try_clone(&self.peers)?,
            stopping: Arc::try_clone(&self.stopping)?,
            conn,
            peer,
            is_verbose: self.is_verbose,
        })
    }
}

/// One more owner of what may be there.
fn share<T>(shared: &Option<Arc<T, Global>>) -> Result<Option<Arc<T, Global>>, AllocError>
    ensures { IfOk result (λ other. option_map arc_value other ≡ option_map arc_value shared.now) }
{
    match shared {
        Some(shared) => Ok(Some(Arc::try_clone(shared)?)),
        None => Ok(None),
    }
}
