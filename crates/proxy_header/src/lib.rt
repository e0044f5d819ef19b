//! The header with which a proxy begins a connection, so that the server knows the client's address: a line of text or a block of bytes
//! (HAProxy's PROXY protocol, 2.1 and 2.2).
#![tactic(auto)]

mod beginning;
mod block;
mod body;
mod fault;
mod fields;
mod header;
pub mod laws;
mod limits;
mod line;

pub use fault::HeaderFault;
pub use header::{Header, Reading, read_header};
pub use limits::MOST_HEADER;
