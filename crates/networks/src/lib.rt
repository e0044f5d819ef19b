//! Networks of a command line (RFC 4632, 3.1; RFC 4291, 2.3): their text, and whether an address is in one; and how many
//! connections and mounts an address has.
#![tactic(auto)]

mod address;
mod fault;
pub mod laws;
mod network;
mod networks;
mod peer_table;
mod text;

pub use address::Address;
pub use fault::NetworkFault;
pub use network::Network;
pub use networks::Networks;
pub use peer_table::{JoinFault, Peer, PeerTable};
