//! What waits to be written on a client's connection to a server of RTSP 1.0 (RFC 2326): requests, replies and frames, in order.
#![tactic(auto)]

mod buffer;
pub mod laws;
mod marks;
mod outgoing;

pub use outgoing::{MOST_WAITING_BYTES, Outgoing};
