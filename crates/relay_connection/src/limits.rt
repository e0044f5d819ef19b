//! The limits of a connection that a peer or an operator can meet. What happens at each, and what changes it, is in `docs/LIMITS.md`.

/// How many entries of its history a server keeps before they are cut off: under 24 MB of the largest requests that are taken,
/// which come to some 500 KB each with all of their fields and the reply.
pub(crate) const KEPT_ENTRIES: usize = 40;

/// For how many milliseconds a connection may keep a mount of which it sets up no track.
pub(crate) const SETUP_WAIT: u64 = 60_000;

/// How long the frames of a player that pauses or leaves may take to end, in milliseconds. After that the player has stopped
/// reading, and is disconnected, so that its seat is free.
pub(crate) const STALLED: u64 = 2_000;

/// How long a connection's end waits after its last text: for the frames, and for each read. In milliseconds.
pub(crate) const AFTER_TEXT: u64 = 200;

/// How many reads may follow the last text.
pub(crate) const LAST_READS: u32 = 16;
