//! One try of `relay pull`: a stream is fetched from an RTSP server (the source) and announced to a relay (the target), each packet unchanged.
//! [`PullSession`] is all of it as one value between two streams of bytes. It has no socket, no thread and no clock.
#![tactic(auto)]

mod asking;
mod closing;
mod frames;
mod limits;
mod line;
mod login;
mod note;
mod offer;
mod options;
mod passing;
mod reading;
mod reason;
mod replies;
mod session;
mod tracks;
mod unsent;
mod watch;

pub use limits::BLOCK_BYTES;
pub use note::{Note, Notes};
pub use options::PullOptions;
pub use reason::{DescriptionFault, LoginFault, Reason};
pub use session::PullSession;
