//! What packets of a mount go through.
use crate::mount::leave::Leave;
use cursor::{Feed, Left, Lend};
use pacing::Back;
use packet_ring::Pass;
use std::alloc::{AllocError, Global};

/// Makes the feed and the passes of a mount, which its packets go through from its publisher to its players.
pub trait Maker {
    type In: Feed + Drop + Send;

    type Pass: Drop + Send;

    type Out: Lend + Leave + Drop + Send;

    /// A feed, and a pass for each seat.
    fn make(&self, alloc: Global) -> Result<(Self::In, Vec<Self::Pass>), AllocError>;

    /// Attaches a seat: what is published from now on comes out of the tap, and `back` packets before it.
    fn attach(&self, pass: Self::Pass, back: u64) -> Self::Out;

    /// Detaches it again.
    fn detach(&self, out: Self::Out) -> (Self::Pass, Left);

    /// Returns how many packets are kept for a player that is behind.
    fn keep(&self) -> u64;

    /// Returns with which packets from before each PLAY begins.
    fn back(&self) -> Back;

    /// Returns whether a frame thread writes packets from where they lie in the ring.
    fn is_direct(&self) -> bool {
        false
    }
}
