//! What is read and written on a connection.
use crate::discarded::Discarded;
use crate::limits::{DISCARD_BYTES, MOST_CALLS};
use http_server::{Connection, Service, State};
use mio::net::TcpStream;
use std::io::{ErrorKind, Read};

/// How a turn on a connection ended.
#[derive(Clone, Copy, Debug, PartialEq, Eq, Drop)]
pub(crate) enum Flow {
    /// The system has nothing to read, or no room to write, until it reports it.
    Waits,
    /// There may be more to do. The others have their turn first.
    Pauses,
    /// All that was to be done here is done.
    Done,
    /// The connection can't go on.
    Broken,
}

/// Reads a request and writes its answer, as far as the system has bytes and room.
pub(crate) fn answer<S: Service>(
    stream: &mut TcpStream,
    connection: &mut Connection,
    service: &mut S,
) -> Flow {
    for _ in 0..MOST_CALLS {
        connection.advance(service);
        if connection.is_done() {
            return match connection.state() {
                State::Aborted => Flow::Broken,
                _ => Flow::Done,
            };
        }
        let moved = if connection.wants_write() {
            connection.write_to(stream)
        } else {
            connection.read_from(stream)
        };
        match moved {
            Ok(_) => {}
            Err(error) if error.kind() == ErrorKind::WouldBlock => return Flow::Waits,
            Err(error) if error.kind() == ErrorKind::Interrupted => {}
            Err(_) => return Flow::Broken,
        }
    }
    Flow::Pauses
}

/// Reads and discards what comes after an answer, so that the system sends no reset that destroys the answer.
pub(crate) fn discard(stream: &mut TcpStream, discarded: &mut Discarded) -> Flow {
    let mut bytes = [0; DISCARD_BYTES];
    for _ in 0..MOST_CALLS {
        match stream.read(&mut bytes) {
            Ok(0) => return Flow::Done,
            Ok(count) if discarded.add(count) => {}
            Err(error) if error.kind() == ErrorKind::WouldBlock => return Flow::Waits,
            Err(error) if error.kind() == ErrorKind::Interrupted => {}
            Ok(_) | Err(_) => return Flow::Broken,
        }
    }
    Flow::Pauses
}
