//! How a try connects.
use crate::limits::CONNECT_WAIT;
use crate::try_end::TryEnd;
use base_syntax::Bytes;
use rtsp_client::Side;
use sockets::limit_peers;
use std::io::ErrorKind;
use std::net::{Net, SocketAddr, TcpListener, TcpStream, ToSocketAddrs};
use std::time::Duration;
use std::{io, net};

/// Connects to a host: each of its addresses is tried in turn, for five seconds at most. The socket doesn't wait for its peer.
pub(crate) fn connect<R>(
    rt: &R,
    side: Side,
    host: &Bytes,
    port: u16,
) -> Result<mio::net::TcpStream, TryEnd>
where
    R: Net<Listener = TcpListener, Stream = TcpStream>,
{
    let none = TryEnd::NotFound {
        side,
        kind: ErrorKind::InvalidInput,
    };
    let Ok(name) = str::from_utf8(host.as_slice()) else {
        return Err(none);
    };
    let addrs = match (name, port).to_socket_addrs(rt) {
        Ok(addrs) => addrs,
        Err(error) => {
            let kind = error.kind();
            return Err(TryEnd::NotFound { side, kind });
        }
    };
    let mut end = TryEnd::NotFound {
        side,
        kind: ErrorKind::NotFound,
    };
    for addr in addrs {
        match connect_to(rt, addr) {
            Ok(stream) => return Ok(stream),
            Err(error) => {
                let kind = error.kind();
                end = TryEnd::NotConnected { side, kind };
            }
        }
    }
    Err(end)
}

/// Connects to an address. Small writes leave at once, and a peer that acknowledges nothing is disconnected by the system.
fn connect_to<R>(rt: &R, addr: SocketAddr) -> io::Result<mio::net::TcpStream>
where
    R: Net<Listener = TcpListener, Stream = TcpStream>,
{
    let wait = Duration::from_millis(CONNECT_WAIT);
    let stream = net::TcpStream::connect_timeout(rt, &addr, wait)?;
    // Without these frames would only leave later, and a dead peer stay.
    let _ = stream.set_nodelay(true);
    let _ = limit_peers(&stream);
    stream.set_nonblocking(true)?;
    Ok(mio::net::TcpStream::from_std(stream))
}
