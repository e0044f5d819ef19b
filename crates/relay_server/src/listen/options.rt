//! What a server does, as its command line says.
use pacing::Back;

/// What a server does, as its command line says.
#[derive(Clone, Copy, Debug, Drop)]
pub struct Options {
    /// After this many connections none is accepted any more. `None` goes on for ever.
    pub accept: Option<u64>,
    /// For how many milliseconds packets gather before the players of their mount are woken.
    pub gather: u64,
    /// With which packets from before each PLAY begins that takes a seat.
    pub back: Back,
    /// A player is sent the end of its stream after the last packet of its mount was written, and disconnected if it is still
    /// there this many milliseconds later. `None` lets it stay.
    pub after_end: Option<u64>,
    /// A write to a peer fails, and ends its connection, if no byte of it could be written for this many milliseconds, at least 1.
    /// `None` leaves that to the system, which knows what the peer acknowledges.
    pub write_wait: Option<u64>,
    /// For how many milliseconds after a mount's end its packets are kept for a player that takes them slowly.
    pub end_wait: u64,
    /// How often a silent connection is checked, in milliseconds: at least 1.
    pub read_wait: u64,
    /// A connection without a session is disconnected if no whole message or frame of it came for this many milliseconds. `None`
    /// lets it stay.
    pub idle: Option<u64>,
    /// A connection that records is disconnected if no whole message or frame of it came for this many milliseconds. `None` leaves
    /// it to the expiry of its session.
    pub silent: Option<u64>,
    /// How many threads send the frames of all players; 0 gives each player a thread of its own.
    pub writers: usize,
    /// Whether a player's own thread writes packets from their place in the ring: then a player that stops reading holds up its
    /// mount, whose packets are refused and counted meanwhile. With writers nothing is written so.
    pub is_direct: bool,
    /// Whether lines report each mount and each player as they come and leave.
    pub is_verbose: bool,
    /// After this many milliseconds, and again after as many, lines report each mount that packets came to, and each player that
    /// lost some. `None` for never.
    pub report: Option<u64>,
}
