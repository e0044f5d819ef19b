//! The limits that a peer or an operator can meet here. What happens at each, and what changes it, is in `docs/LIMITS.md`.

/// How many offers may be unused.
pub(crate) const MOST_OFFERS: usize = 4;

/// How long an ANNOUNCE waits for an offer, in milliseconds.
pub(crate) const OFFER_WAIT: u64 = 2_000;

/// How many bytes of frames are gathered for one write, if there are that many.
pub(crate) const GATHERED: usize = 32 * 1024;

/// The shortest wait for players, in microseconds. In less time, even a player that keeps up may not take all.
pub(crate) const LEAST_WAIT: u64 = 1_000;

/// How many tries of a publish only yield to other threads, which costs nothing if none waits for a processor.
pub(crate) const YIELDS: u32 = 4;

/// How long each of the later pauses takes, in microseconds.
pub(crate) const PAUSE: u64 = 500;

/// For how long the tries of one publish may pause, in milliseconds.
pub(crate) const PAUSES: u64 = 20;
