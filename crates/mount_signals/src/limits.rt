//! The limits of what a mount's publisher and its players share that a peer or an operator can meet. What happens at each, and what
//! changes it, is in `docs/LIMITS.md`.

/// For how long packets still gather if a mount has a full batch, in milliseconds, so that the rest of a burst comes with them.
pub(crate) const BURST: u64 = 1;

/// How many takes are made before a reply may be written between frames.
pub const TAKES: u64 = 16;

/// How many writers a server has at most.
pub(crate) const MOST_WRITERS: usize = 64;
