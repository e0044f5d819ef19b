//! The figures of a player.

/// The figures of a player in its seat, in packets.
#[derive(Clone, Copy, Debug, PartialEq, Eq, Drop)]
pub struct PlayerFigures {
    pub sent: u64,
    /// How many bytes these have.
    pub bytes: u64,
    /// How many are of tracks that it didn't set up.
    pub skipped: u64,
    /// How many it has lost at least.
    pub lost: u64,
    /// How many were published and aren't taken for it yet.
    pub behind: u64,
    /// How many were published since it took its seat.
    pub published: u64,
}
