//! What a listener and the sockets that it accepts are set to, and a listener's end.
ghost use Rattle.libc.specs.Net.{SockOption};

use crate::limits::{KEEPALIVE_DISTANCE, KEEPALIVE_IDLE, KEEPALIVE_PROBES, UNACKNOWLEDGED};
use libc::net;
use std::io;
use std::net::TcpListener;
use std::os::fd::AsRawFd;

/// Has the system disconnect peers that acknowledge no byte for 20 seconds while bytes wait for them and, while none do, peers that
/// don't answer a keepalive: 20 seconds after they were heard last. A read or a write of such a socket fails then. It is set for a
/// socket, or for a listener, whose sockets have it too, but for those that come before. An error says that the system has no such
/// options.
pub fn limit_peers(socket: &impl AsRawFd) -> io::Result<()> {
    let fd = socket.as_raw_fd();
    set(fd, net::IPPROTO_TCP, net::TCP_USER_TIMEOUT, UNACKNOWLEDGED)?;
    set(fd, net::SOL_SOCKET, net::SO_KEEPALIVE, 1)?;
    set(fd, net::IPPROTO_TCP, net::TCP_KEEPIDLE, KEEPALIVE_IDLE)?;
    set(fd, net::IPPROTO_TCP, net::TCP_KEEPINTVL, KEEPALIVE_DISTANCE)?;
    set(fd, net::IPPROTO_TCP, net::TCP_KEEPCNT, KEEPALIVE_PROBES)
}

/// Asks for a send buffer of this many bytes for each socket that this listener will accept, and returns how many of them the
/// system grants (Linux: `net.core.wmem_max` at most). Linux makes it twice as long, for its own bookkeeping, most of which it
/// doesn't need for large writes: so it may hold nearly twice as many bytes.
pub fn set_send_buffer(listener: &TcpListener, bytes: u32) -> io::Result<u32> {
    let fd = listener.as_raw_fd();
    set(fd, net::SOL_SOCKET, net::SO_SNDBUF, bytes)?;
    let mut value = [0; 16];
    let mut len = 4;
    let got = unsafe { net::getsockopt(fd, net::SOL_SOCKET, net::SO_SNDBUF, &mut value, &mut len) };
    if got != 0 {
        return Err(io::Error::from_raw_os_error(os::errno()));
    }
    let [a, b, c, d, ..] = value;
    Ok(u32::from_ne_bytes([a, b, c, d]) / 2)
}

/// Sets an option of a socket.
fn set(fd: i32, level: i32, option: i32, number: u32) -> io::Result<()>
    requires { SockOption level option }
{
    let mut value = [0; 16];
    value[..4].copy_from_slice(&number.to_ne_bytes());
    let set = unsafe { net::setsockopt(fd, level, option, &value, 4) };
    if set == 0 {
        Ok(())
    } else {
        Err(io::Error::from_raw_os_error(os::errno()))
    }
}

/// Ends the accepting of a listener, from any thread: an `accept` that waits returns with an error, and its port refuses peers.
pub fn stop_listening(listener: &TcpListener) {
    let _ = net::shutdown(listener.as_raw_fd(), net::SHUT_RDWR);
}
