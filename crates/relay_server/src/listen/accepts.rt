//! Where connections come from.
use std::io;
use std::net::{SocketAddr, TcpListener, TcpStream};

/// Where a server's connections come from: a listener, or a test's own type, which fails.
pub trait Accepts {
    /// Waits for the next connection, and returns it with its peer's address. After an error it may be called again.
    fn accept(&self) -> io::Result<(TcpStream, SocketAddr)>;
}

impl Accepts for TcpListener {
    fn accept(&self) -> io::Result<(TcpStream, SocketAddr)> {
        TcpListener::accept(self)
    }
}
