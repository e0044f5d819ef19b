//! Connections from a proxy: each begins with a header that gives its client's address. The connection's own thread reads it, without a
//! lock, and so no other connection waits for it.
ghost use Rattle.std.specs.Prelude.{◌≤◌, IfOk, length};

use crate::limits::{HEADER_WAIT, LAST_LOOK};
use crate::listen::refused_peers::RefusedPeers;
use admission::{Access, Peers, Rights};
use networks::Address;
use proxy_header::{MOST_HEADER, Reading, read_header};
use relay_accounts::{ConnectionEnd, HeaderEnd};
use relay_log::Refusal;
use sockets::{Socket, SteadyClock};
use std::alloc::{AllocError, Global};
use std::io::{ErrorKind, Read};
use std::net::SocketAddr;
use std::sync::{Arc, Wait};
use std::time::{Clock, Duration};

/// What the thread of a connection from a proxy needs until it knows the client.
pub(super) struct Proxied {
    access: Arc<Access, Global>,
    peers: Arc<Peers, Global>,
    refused: Arc<RefusedPeers, Global>,
    socket: Socket,
    /// The socket's read timeout after the header, in milliseconds.
    read_wait: u64,
}

/// A client whose connection came from a proxy.
#[derive(Drop)]
pub(super) struct Client {
    pub(super) peer: SocketAddr,
    pub(super) rights: Rights,
}

impl Drop for Proxied {
    fn drop(self) {
        let Proxied {
            access: _,
            peers: _,
            refused: _,
            socket: _,
            read_wait: _,
        } = self;
    }
}

impl Proxied {
    /// A connection came over this socket.
    pub(super) fn new(
        access: &Arc<Access, Global>,
        peers: &Arc<Peers, Global>,
        refused: &Arc<RefusedPeers, Global>,
        socket: Socket,
        read_wait: u64,
    ) -> Result<Proxied, AllocError> {
        Ok(Proxied {
            access: Arc::try_clone(access)?,
            peers: Arc::try_clone(peers)?,
            refused: Arc::try_clone(refused)?,
            socket,
            read_wait,
        })
    }

    /// Reads the header of a connection that came from this address. Returns the client, which is one of its address's connections
    /// now. If it isn't served, returns how the connection ends: if its address has as many connections as it may, 503 is written.
    pub(super) fn meet<R: Wait + Clock>(
        self,
        rt: &R,
        conn: u64,
        own: SocketAddr,
    ) -> Result<Client, ConnectionEnd> {
        let peer = read_client(rt, &self.socket)?.unwrap_or(own);
        let wait = Duration::from_millis(self.read_wait);
        let _ = self.socket.stream().set_read_timeout(Some(wait));
        match self.let_in(rt, conn, Address::of(peer.ip())) {
            Ok(rights) => Ok(Client { peer, rights }),
            Err(why) => {
                let Proxied {
                    access: _,
                    peers: _,
                    refused,
                    socket,
                    read_wait: _,
                } = self;
                refused.refuse(rt, why, peer, socket);
                Err(ConnectionEnd::Done)
            }
        }
    }

    /// Makes the connection one of this address's, and returns what it may do.
    fn let_in(&self, rt: &impl Wait, conn: u64, address: Address) -> Result<Rights, Refusal> {
        let rights = match self.access.rights(&self.peers, conn, address) {
            Ok(rights) => rights,
            Err(AllocError) => return Err(Refusal::OutOfMemory),
        };
        let (group, most) = self.access.room_of(address);
        self.peers.join(rt, conn, group, most)?;
        Ok(rights)
    }
}

/// Reads the header with which a connection begins, and no byte after it. Returns the client's address, or `None` if the header gives
/// none. Waits for at most two seconds; what is there then is still read, once.
fn read_client<R: Wait + Clock>(
    rt: &R,
    socket: &Socket,
) -> Result<Option<SocketAddr>, ConnectionEnd> {
    let mut clock = SteadyClock::new(rt);
    let mut buf = [0; MOST_HEADER];
    let mut len = 0;
    for _ in rt.forever() {
        let rest = clock.read(rt).until(1_000 * HEADER_WAIT);
        let came = peek(socket, &mut buf[len..], rest.max(LAST_LOOK), len > 0)?;
        match read_header(&buf[..len + came]) {
            Reading::NeedMore if rest == 0 => {
                return Err(ConnectionEnd::NoHeader(HeaderEnd::Late));
            }
            Reading::NeedMore => {
                skip(socket, came)?;
                len += came;
            }
            Reading::Header(header) => {
                skip(socket, header.len.saturating_sub(len))?;
                return Ok(header.client);
            }
            Reading::Bad(fault) => return Err(ConnectionEnd::NoHeader(HeaderEnd::Bad(fault))),
        }
    }
    unreachable!()
}

/// Returns how many bytes are there, which stay to be read. Waits for at most this many microseconds.
fn peek(socket: &Socket, buf: &mut [u8], most: u64, has_begun: bool) -> Result<usize, ConnectionEnd>
    ensures { IfOk result (λ count. count ≤ length buf.old) }
{
    let _ = socket
        .stream()
        .set_read_timeout(Some(Duration::from_micros(most)));
    match socket.peek(buf) {
        Ok(0) if has_begun => Err(ConnectionEnd::NoHeader(HeaderEnd::Cut)),
        Ok(0) => Err(ConnectionEnd::Done),
        Ok(count) => Ok(count),
        Err(error) => match error.kind() {
            ErrorKind::Interrupted => Ok(0),
            ErrorKind::WouldBlock => Err(ConnectionEnd::NoHeader(HeaderEnd::Late)),
            // A proxy that looks whether the server is there may end its look by a reset.
            _ if !has_begun => Err(ConnectionEnd::Done),
            _ => Err(ConnectionEnd::ReadFailed),
        },
    }
}

/// Reads this number of bytes, which are there.
fn skip(socket: &Socket, count: usize) -> Result<(), ConnectionEnd> {
    let mut buf = [0; MOST_HEADER];
    let mut stream = socket.stream();
    match stream.read_exact(&mut buf[..count.min(MOST_HEADER)]) {
        Ok(()) => Ok(()),
        Err(_) => Err(ConnectionEnd::ReadFailed),
    }
}
