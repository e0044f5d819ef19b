//! Who may do what: the rights of a connection by its peer's address, how many connections and mounts each address has, the sockets
//! of all connections, and the gate that each passes.
//!
//! The listening thread and the threads of connections call these. The locks of the peers and of the sockets are each held for a look
//! or a change of a list, and no other is taken meanwhile.
#![tactic(auto)]

mod access;
mod gate;
mod live_sockets;
mod peers;
mod rights;

pub use access::Access;
pub use gate::{Gate, OpenGate};
pub use live_sockets::{LiveEntry, LiveSockets, Removed};
pub use peers::{PeerEntry, Peers};
pub use rights::Rights;
