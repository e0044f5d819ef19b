//! How a pass takes turns, and how large its ring is.

/// How many frames are published and how many takes are made in one turn, each at least 1.
#[derive(Clone, Copy, Debug, PartialEq, Eq)]
pub struct Pace {
    /// The most frames that a turn publishes.
    pub frames: u64,
    /// The most takes that a turn makes after them.
    pub takes: u64,
}

/// The size of a ring.
#[derive(Clone, Copy, Debug, PartialEq, Eq)]
pub struct RingSize {
    /// How many packets the ring keeps: 1 to 4,095.
    pub keep: usize,
    /// The most bytes of a packet: 1 to 65,535.
    pub packet_bytes: usize,
}
