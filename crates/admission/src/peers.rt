//! Which connections there are, from where, and which of them have a mount.
ghost use Rattle.std.specs.Prelude.{◌≡◌};

use crate::live_sockets::LiveEntry;
use networks::{Address, JoinFault, PeerTable};
use server_counts::Refusal;
use std::alloc::Global;
use std::marker::Model;
use std::sync::{Mutex, Wait};

/// Which connections there are, by the groups of their addresses, and which of them have a mount. The lock is held for a walk over
/// them, and no other is taken meanwhile.
pub struct Peers {
    table: Mutex<PeerTable>,
}

/// A connection is among the peers, or is to be once its address is known, and its socket is among the live ones. It has no `Drop`, so
/// that it ends in `Peers::remove`, or goes on to `Stopping::come`.
///
/// Its model is the number of the connection.
pub struct PeerEntry {
    socket: LiveEntry,
}

impl Model for PeerEntry {
    ghost use Rattle.std.specs.Prelude.{ℕ};

    ghost Value = { ℕ };

    ghost view = { λ entry. entry.socket };
}

impl PeerEntry {
    /// The connection's thread takes it out.
    pub fn hand_over(self) {
        let PeerEntry { socket } = self;
        socket.hand_over();
    }

    /// The connection's thread has it.
    pub fn of_thread(conn: u64) -> PeerEntry
        ensures { result ≡ conn }
    {
        PeerEntry {
            socket: LiveEntry::of_thread(conn),
        }
    }
}

impl Drop for Peers {
    fn drop(self) {
        let Peers { table: _ } = self;
    }
}

impl Peers {
    /// There are none.
    pub fn new(alloc: Global) -> Peers {
        Peers {
            table: Mutex::new(PeerTable::new(alloc)),
        }
    }

    /// How many connections a group has.
    pub fn connections(&self, rt: &impl Wait, group: Address) -> usize {
        self.table.lock(rt).connections(group)
    }

    /// A connection of a group comes, whose socket was added. If its group has `most` already, or there is no memory, the socket is to
    /// be removed.
    pub fn add(
        &self,
        rt: &impl Wait,
        socket: LiveEntry,
        group: Address,
        most: Option<usize>,
    ) -> Result<PeerEntry, (LiveEntry, Refusal)> {
        match self.join(rt, socket.conn(), group, most) {
            Ok(()) => Ok(PeerEntry { socket }),
            Err(why) => Err((socket, why)),
        }
    }

    /// A connection comes whose socket was added, and whose group isn't known yet: no group has it until it joins one.
    pub fn add_unknown(socket: LiveEntry) -> PeerEntry
        ensures { result ≡ socket }
    {
        PeerEntry { socket }
    }

    /// A connection is one of a group, unless that has `most` already, or there is no memory.
    pub fn join(
        &self,
        rt: &impl Wait,
        conn: u64,
        group: Address,
        most: Option<usize>,
    ) -> Result<(), Refusal> {
        match self.table.lock(rt).join(conn, group, most) {
            Ok(()) => Ok(()),
            Err(JoinFault::Full) => Err(Refusal::AddressFull),
            Err(JoinFault::OutOfMemory) => Err(Refusal::OutOfMemory),
        }
    }

    /// A connection has ended, or its thread wasn't started.
    pub fn remove(&self, rt: &impl Wait, peer: PeerEntry) -> LiveEntry {
        let PeerEntry { socket } = peer;
        self.table.lock(rt).remove(socket.conn());
        socket
    }

    /// A connection is to have a mount, unless its group has `most` already. Returns whether it has one now.
    pub fn take_mount(&self, rt: &impl Wait, conn: u64, most: usize) -> bool {
        self.table.lock(rt).take_mount(conn, most)
    }

    /// A connection has no mount any more.
    pub fn leave_mount(&self, rt: &impl Wait, conn: u64) {
        self.table.lock(rt).leave_mount(conn);
    }
}
