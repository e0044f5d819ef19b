//! Bytes in, bytes out: the frames of a publisher's stream, over a ring, to a player, in one thread.
#![tactic(auto)]

mod feeding;
mod frames;
mod known;
pub mod laws;
mod new_ring;
mod pace;
mod passing;
mod publishing;
mod report;
mod taking;

pub use new_ring::pass_over_new_ring;
pub use pace::{Pace, RingSize};
pub use passing::pass;
pub use report::{FrameCounts, PassReport, PassStop, StreamEnd, TakeCounts};
