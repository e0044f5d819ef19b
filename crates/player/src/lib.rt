//! What goes out to a player: the packets of a tap, as frames on the channels of its session
//! (RFC 2326, 10.12).
#![tactic(auto)]

mod frame_writer;
mod framing;
mod holding;
mod relaying;
mod report;

pub use holding::relay_out_held;
pub use relaying::relay_out;
pub use report::{OutReport, OutStop};
