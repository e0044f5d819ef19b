//! A listener that serves the pages of a status listener by HTTP/1.1, on one thread. It is outside the packet path and knows no mount.
#![tactic(auto)]

mod accepting;
mod discarded;
mod ending;
mod exchange;
mod limits;
mod listener;
mod peer;
mod phase;
mod serving;
mod visit;
mod visits;
mod watch;

pub use ending::Ending;
pub use listener::StatusListener;
