//! What comes in from a publisher: the frames of its connection, as packets of a feed
//! (RFC 2326, 10.12; RFC 3550, 5.1).
#![tactic(auto)]

mod fate;
mod observing;
mod offering;
mod points;
mod relaying;
mod report;
mod rtp;

pub use fate::Fate;
pub use observing::FateObserver;
pub use offering::publish_frame;
pub use points::point_to_post;
pub use relaying::{relay_in, relay_in_observed};
pub use report::{InReport, InStop};
pub use rtp::point_of;
