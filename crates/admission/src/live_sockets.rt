//! The sockets that a stop shuts down.
ghost use Rattle.std.specs.Prelude.{◌≡◌};

use server_counts::ServerCounts;
use sockets::{HangUp, SharedSocket, Socket};
use std::alloc::{AllocError, Global};
use std::marker::Model;
use std::sync::{Arc, Mutex, Wait};

/// The socket of a connection that has a thread.
#[derive(Drop)]
struct Live {
    conn: u64,
    socket: Socket,
}

/// A connection's socket is among the live ones. It has no `Drop`, so that it ends in `LiveSockets::remove`, or goes on to
/// `Peers::add`.
///
/// Its model is the number of the connection.
pub struct LiveEntry {
    conn: u64,
}

impl Model for LiveEntry {
    ghost use Rattle.std.specs.Prelude.{ℕ};

    ghost Value = { ℕ };

    ghost view = { λ entry. entry.conn };
}

impl LiveEntry {
    /// Returns the number of the connection.
    pub fn conn(&self) -> u64
        ensures { result ≡ self.now }
    {
        self.conn
    }

    /// The connection's thread takes it out.
    pub(crate) fn hand_over(self) {
        let LiveEntry { conn: _ } = self;
    }

    /// The connection's thread has it.
    pub(crate) fn of_thread(conn: u64) -> LiveEntry
        ensures { result ≡ conn }
    {
        LiveEntry { conn }
    }
}

/// A connection's socket isn't among the live ones any more.
#[derive(Drop)]
pub struct Removed(());

/// The sockets of the connections that have a thread, which a stop shuts down. The lock is held for a walk over them, and no
/// other is taken meanwhile. Each is counted as a connection.
pub struct LiveSockets {
    sockets: Mutex<Vec<Live>>,
    counts: Arc<ServerCounts, Global>,
}

impl Drop for LiveSockets {
    fn drop(self) {
        let LiveSockets {
            sockets: _,
            counts: _,
        } = self;
    }
}

impl LiveSockets {
    /// No connection has a thread.
    pub fn new(alloc: Global, counts: Arc<ServerCounts, Global>) -> LiveSockets {
        LiveSockets {
            sockets: Mutex::new(Vec::new(alloc)),
            counts,
        }
    }

    /// A connection comes.
    pub fn add(
        &self,
        rt: &impl Wait,
        conn: u64,
        shared: &Arc<SharedSocket, Global>,
    ) -> Result<LiveEntry, AllocError> {
        let socket = Socket::of(shared)?;
        self.sockets.lock(rt).push(Live { conn, socket })?;
        self.counts.begin_connection();
        Ok(LiveEntry { conn })
    }

    /// A connection has ended, or its thread wasn't started.
    pub fn remove(&self, rt: &impl Wait, entry: LiveEntry) -> Removed {
        let LiveEntry { conn } = entry;
        let mut sockets = self.sockets.lock(rt);
        for (place, live) in sockets.iter().enumerate() {
            if live.conn == conn {
                sockets.swap_remove(place);
                break;
            }
        }
        self.counts.end_connection();
        Removed(())
    }

    /// Shuts down both directions of each socket, so that no thread waits for its peer.
    pub fn shut_down(&self, rt: &impl Wait) {
        for live in self.sockets.lock(rt).iter() {
            live.socket.hang_up();
        }
    }
}
