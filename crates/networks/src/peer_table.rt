//! The connections of a server, by the groups of their addresses.
ghost use Rattle.std.specs.Prelude.{◌≡◌, ◌↔◌, ◌++◌, ◌∷◌, ◌<◌, [], true, false, IsSomeAnd, IsTrue, OnErr, OnOk};
ghost use Rattle.networks.specs.Peers.{IsFullFor, connections_of, entry_of, marked, others_with_mount, without};
ghost use Rattle.std.specs.Bool.{OnFalse, OnTrue};
ghost use Rattle.std.specs.Option.{option_copied};

use crate::address::Address;
use std::alloc::{AllocError, Global};
use std::marker::Model;

/// A connection, and what it counts as.
#[derive(Clone, Copy, Debug, PartialEq, Eq, Drop)]
pub struct Peer {
    /// The connection's number.
    pub conn: u64,
    /// The group of its peer's address.
    pub group: Address,
    /// Whether it has a mount, or is about to have one.
    pub has_mount: bool,
}

/// Why a connection wasn't added.
#[derive(Clone, Copy, Debug, PartialEq, Eq)]
pub enum JoinFault {
    /// Its group has as many as it may.
    Full,
    OutOfMemory,
}

/// The connections of a server, by the groups of their addresses, and which of them have a mount. A contract sees their list.
#[derive(Debug, Drop)]
pub struct PeerTable {
    peers: Vec<Peer>,
}

impl Model for PeerTable {
    ghost use Rattle.std.specs.Prelude.{List};
    ghost use Rattle.networks.specs.declared.peer_table.Peer.{Peer};

    ghost Value = { List Peer };

    ghost view = { λ t. t.peers.items };
}

impl PeerTable {
    /// Returns a table without connections.
    pub fn new(alloc: Global) -> PeerTable
        ensures { result ≡ [] }
    {
        PeerTable {
            peers: Vec::new(alloc),
        }
    }

    /// Returns how many connections a group has.
    pub fn connections(&self, group: Address) -> usize
        ensures { result ≡ connections_of group self.now }
    {
        self.peers.iter().filter(|peer| peer.group == group).count()
    }

    /// Adds a connection of a group. It has no mount.
    pub fn add(&mut self, conn: u64, group: Address) -> Result<(), AllocError>
        ensures added { OnOk result (self.new ≡ self.old ++ record { conn = conn; group = group; has_mount = false } ∷ []) }
        ensures err { OnErr result (self.new ≡ self.old) }
    {
        self.peers.push(Peer {
            conn,
            group,
            has_mount: false,
        })?;
        Ok(())
    }

    /// Adds a connection of a group, unless that has `most` already. It has no mount.
    pub fn join(&mut self, conn: u64, group: Address, most: Option<usize>) -> Result<(), JoinFault>
        ensures full { IsFullFor group most self.old → result ≡ Err JoinFault.Full }
        ensures room { result ≡ Err JoinFault.Full → IsFullFor group most self.old }
        ensures added { OnOk result (self.new ≡ self.old ++ record { conn = conn; group = group; has_mount = false } ∷ []) }
        ensures err { OnErr result (self.new ≡ self.old) }
    {
        if let Some(most) = most {
            if self.connections(group) >= most {
                return Err(JoinFault::Full);
            }
        }
        match self.add(conn, group) {
            Ok(()) => Ok(()),
            Err(AllocError) => Err(JoinFault::OutOfMemory),
        }
    }

    /// Removes a connection that has ended. The others keep their order.
    pub fn remove(&mut self, conn: u64)
        ensures { self.new ≡ without conn self.old }
    {
        self.peers.retain(|peer| peer.conn != conn);
    }

    /// Marks a connection as having a mount, if fewer than `most` others of its group have one. Returns whether it did. For a
    /// connection that isn't in the table it returns false.
    pub fn take_mount(&mut self, conn: u64, most: usize) -> bool
        ensures taken { IsTrue result ↔ IsSomeAnd (entry_of conn self.old) (λ peer. others_with_mount conn peer.group self.old < most) }
        ensures marked { OnTrue result (self.new ≡ marked conn true self.old) }
        ensures unchanged { OnFalse result (self.new ≡ self.old) }
    {
        let Some(peer) = self.entry(conn) else {
            return false;
        };
        let group = peer.group;
        if self.others_with_mount(conn, group) >= most {
            return false;
        }
        self.set_mount(conn, true);
        true
    }

    /// Marks a connection as having no mount.
    pub fn leave_mount(&mut self, conn: u64)
        ensures { self.new ≡ marked conn false self.old }
    {
        self.set_mount(conn, false);
    }

    fn entry(&self, conn: u64) -> Option<&Peer>
        ensures { option_copied result ≡ entry_of conn self.now }
    {
        self.peers.iter().find(|peer| peer.conn == conn)
    }

    fn others_with_mount(&self, conn: u64, group: Address) -> usize
        ensures { result ≡ others_with_mount conn group self.now }
    {
        self.peers
            .iter()
            .filter(|peer| peer.conn != conn && peer.group == group && peer.has_mount)
            .count()
    }

    fn set_mount(&mut self, conn: u64, has_mount: bool)
        ensures { self.new ≡ marked conn has_mount self.old }
    {
        for peer in self.peers.iter_mut() {
            if peer.conn == conn {
                peer.has_mount = has_mount;
            }
        }
    }
}
