//! What the crates of tests share: a runtime whose standard error is kept, the counts of a server, and the parts of devices in memory.
#![tactic(auto)]

mod counts;
mod devices;
mod kept;

pub use counts::no_counts;
pub use devices::{Bytes, Count, FRAME, HangUps, Open, PACKET, count, has_come, wait_for};
pub use kept::Kept;
