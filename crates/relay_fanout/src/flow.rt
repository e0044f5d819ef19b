//! How a publisher waits for players: for those that keep up, and for one that copies the packet that its ring replaces next.
//!
//! The publisher's thread waits here. No lock is held in a pause.
pub(crate) mod opened_round;
pub(crate) mod pauses;
