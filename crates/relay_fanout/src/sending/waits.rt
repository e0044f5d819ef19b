//! How long a writer waits for its players' peers.

/// How long a writer waits for its players' peers, in milliseconds.
#[derive(Clone, Copy, Debug, Drop)]
pub struct Waits {
    /// A peer that takes no byte for this time is disconnected. `None` leaves that to the system.
    pub stall: Option<u64>,
    /// The packets of a mount that has ended are kept for this time for a player that takes them slowly.
    pub end: u64,
}
