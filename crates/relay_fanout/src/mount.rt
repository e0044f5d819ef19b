//! A mount beside the book: its feed, which tells of each packet, and the offers that an ANNOUNCE makes.
//!
//! The feed runs on the publisher's own thread. `Offers`' lock is held while an offer changes hands; no other lock is taken meanwhile.
pub(crate) mod leave;
pub(crate) mod maker;
pub(crate) mod mount_feed;
pub(crate) mod offer;
pub(crate) mod offers;
pub(crate) mod ring_maker;
pub(crate) mod seat;
pub(crate) mod stretches;
