//! Accepts connections: each is entered in the book and its thread is started, or it is refused.
ghost use Rattle.std.specs.Prelude.{◌≡◌};
ghost use Rattle.relay_server.specs.Refusals.{refusal_for};

use crate::limits::AFTER_NO_ACCEPT;
use crate::listen::accepts::Accepts;
use crate::listen::ending::take_out;
use crate::listen::new_connection::NewConnection;
use crate::listen::options::Options;
use crate::listen::refused_peers::write_unavailable;
use crate::listen::server::Server;
use crate::listen::stopping::{Entered, Room};
use admission::{Gate, Peers};
use log::Log;
use networks::Address;
use relay_connection::let_in;
use relay_log::Refusal;
use session_state::{ConnectFault, Moments, Words};
use sockets::{SharedSocket, Socket, limit_peers};
use std::alloc::Global;
use std::net::{SocketAddr, TcpStream};
use std::sync::{Arc, Wait};
use std::thread;
use std::thread::{SpawnError, Threads};
use std::time::{Clock, Duration};

/// Accepts connections, for ever or as many as the options say.
pub(super) fn accept_all<R, L, V, G, N>(
    rt: R,
    alloc: Global,
    listener: &L,
    options: Options,
    server: &Server<R, V, G, N>,
)
where
    R: Threads + Wait + Clock + Log + Copy + Send + Sync + 'static,
    L: Accepts,
    V: Words + Drop + Send + 'static,
    G: Gate + Drop + Send + Sync + 'static,
    N: Moments + Copy + Send + Sync + 'static,
{
    let mark = &server.shared.counts.accepting;
    let mut accepted = 0u64;
    for _ in rt.forever() {
        mark.look();
        if options.accept == Some(accepted) {
            return;
        }
        let came = listener.accept();
        mark.raise();
        if server.stopping.is_stopped() {
            return;
        }
        match came {
            Ok((stream, peer)) => {
                accepted = accepted.saturating_add(1);
                set_up(&stream, options);
                welcome(rt, alloc, server, stream, peer);
            }
            Err(_) => {
                server.refusing.count(&rt, Refusal::NotAccepted);
                thread::sleep(&rt, Duration::from_millis(AFTER_NO_ACCEPT));
            }
        }
    }
}

/// Sets a socket up: small writes leave at once, a read to which nothing comes for `read_wait` ends, so that silence is seen, and a
/// peer that acknowledges nothing is disconnected: by the system, which has no such limit for a socket that came while the listener
/// was set up, or by a write that moves nothing.
fn set_up(stream: &TcpStream, options: Options) {
    // Without them frames would only leave later, a stalled peer stay, and a silent one too.
    let _ = stream.set_nodelay(true);
    let is_limited = limit_peers(stream).is_ok();
    let wait = match options.write_wait {
        None if is_limited => None,
        None => Some(options.end_wait),
        wait => wait,
    };
    if let Some(wait) = wait {
        let _ = stream.set_write_timeout(Some(Duration::from_millis(wait)));
    }
    let _ = stream.set_read_timeout(Some(Duration::from_millis(options.read_wait)));
}

/// Lets a connection come and starts its thread. If one or the other is refused, 503 is written to it, it is closed, and that is
/// counted.
fn welcome<R, V, G, N>(
    rt: R,
    alloc: Global,
    server: &Server<R, V, G, N>,
    stream: TcpStream,
    peer: SocketAddr,
)
where
    R: Threads + Wait + Clock + Log + Copy + Send + Sync + 'static,
    V: Words + Drop + Send + 'static,
    G: Gate + Drop + Send + Sync + 'static,
    N: Moments + Copy + Send + Sync + 'static,
{
    let shared = match Arc::new(alloc, SharedSocket::new(stream)) {
        Ok(shared) => shared,
        Err(refused) => {
            write_unavailable(refused.value.stream());
            server.refusing.count(&rt, Refusal::OutOfMemory);
            return;
        }
    };
    if let Err(why) = take_in(rt, alloc, server, &shared, peer) {
        server.refused.refuse(&rt, why, peer, Socket::new(shared));
    }
}

/// Lets a connection come and starts its thread. The thread that accepts is the only one that adds connections to the book and to
/// the count of threads, which only fall meanwhile. How many an address has is compared again as the connection is added.
fn take_in<R, V, G, N>(
    rt: R,
    alloc: Global,
    server: &Server<R, V, G, N>,
    shared: &Arc<SharedSocket, Global>,
    peer: SocketAddr,
) -> Result<(), Refusal>
where
    R: Threads + Wait + Clock + Log + Copy + Send + Sync + 'static,
    V: Words + Drop + Send + 'static,
    G: Gate + Drop + Send + Sync + 'static,
    N: Moments + Copy + Send + Sync + 'static,
{
    let Some(room) = server.stopping.room() else {
        return Err(Refusal::Full);
    };
    let address = Address::of(peer.ip());
    let is_proxy = server.access.is_proxy(address);
    if !is_proxy && server.access.is_full(&rt, &server.peers, address) {
        return Err(room.refuse(Refusal::AddressFull));
    }
    let conn = match let_in(&rt, &server.shared.book) {
        Ok(conn) => conn,
        Err(fault) => return Err(room.refuse(refusal_of(fault))),
    };
    let started = match NewConnection::new(rt, alloc, server, conn, shared, peer) {
        Ok(new) => {
            let known = if is_proxy { None } else { Some(address) };
            start(rt, alloc, server, room, shared, new, known)
        }
        Err(refused) => Err(room.refuse(Refusal::from(refused))),
    };
    if started.is_err() {
        let _ = server.shared.book.lock(&rt).hangup(conn);
    }
    started
}

/// Returns the refusal of a connection that the book has no place for.
fn refusal_of(fault: ConnectFault) -> Refusal
    ensures { result ≡ refusal_for fault }
{
    match fault {
        ConnectFault::Full => Refusal::Full,
        ConnectFault::OutOfMemory => Refusal::OutOfMemory,
    }
}

/// Starts the thread of a connection.
fn start<R, V, G, N>(
    rt: R,
    alloc: Global,
    server: &Server<R, V, G, N>,
    room: Room,
    shared: &Arc<SharedSocket, Global>,
    new: NewConnection<R, V, G, N>,
    address: Option<Address>,
) -> Result<(), Refusal>
where
    R: Threads + Wait + Clock + Log + Copy + Send + Sync + 'static,
    V: Words + Drop + Send + 'static,
    G: Gate + Drop + Send + Sync + 'static,
    N: Moments + Copy + Send + Sync + 'static,
{
    let entered = server.enter(&rt, room, new.conn(), shared, address)?;
    let run = move || new.run(rt, alloc);
    let started = if server.shared.gate.may_start() {
        thread::spawn(&rt, run)
    } else {
        Err(SpawnError { value: run })
    };
    match started {
        Ok(_) => {
            entered.hand_over();
            Ok(())
        }
        Err(_) => {
            take_out(&rt, &server.live, &server.peers, &server.stopping, entered);
            Err(Refusal::NoThread)
        }
    }
}

impl<R: Wait, V, G, N> Server<R, V, G, N> {
    /// Counts a connection that is to have a thread, with its socket and, if that is known, its address. If its address has as many
    /// connections as it may, or there is no memory, it is counted nowhere.
    fn enter(
        &self,
        rt: &R,
        room: Room,
        conn: u64,
        shared: &Arc<SharedSocket, Global>,
        address: Option<Address>,
    ) -> Result<Entered, Refusal> {
        let socket = match self.live.add(rt, conn, shared) {
            Ok(socket) => socket,
            Err(refused) => return Err(room.refuse(Refusal::from(refused))),
        };
        let Some(address) = address else {
            return Ok(self.stopping.come(room, Peers::add_unknown(socket)));
        };
        let (group, most) = self.access.room_of(address);
        match self.peers.add(rt, socket, group, most) {
            Ok(peer) => Ok(self.stopping.come(room, peer)),
            Err((socket, why)) => {
                let _ = self.live.remove(rt, socket);
                Err(room.refuse(why))
            }
        }
    }
}
