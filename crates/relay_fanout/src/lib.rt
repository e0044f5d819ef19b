//! What goes from a mount's publisher to its players: the ring between them and the passes to it, how a publisher gives way to
//! players, and the writers, or the thread of its own, that send a player's frames.
#![tactic(auto)]

mod flow;
mod limits;
mod mount;
mod sending;

pub use mount::leave::Leave;
pub use mount::maker::Maker;
pub use mount::mount_feed::MountFeed;
pub use mount::offer::Offer;
pub use mount::offers::{Busy, Offers};
pub use mount::ring_maker::RingMaker;
pub use mount::seat::Seat;
pub use sending::phase::FramePhase;
pub use sending::seat_hold::SeatHold;
pub use sending::send_side::SendSide;
pub use sending::sent_frames::SentFrames;
pub use sending::tap_place::TapPlace;
pub use sending::waits::Waits;
pub use sending::writers::{NoWriter, Writers};
pub use sending::writing_side::WritingSide;
