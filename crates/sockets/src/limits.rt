//! The limits of sockets that a peer or an operator can meet. What happens at each, and what changes it, is in `docs/LIMITS.md`.

/// For how many milliseconds a peer's system may acknowledge nothing while bytes are sent to it (TCP_USER_TIMEOUT).
pub(crate) const UNACKNOWLEDGED: u32 = 20_000;

/// After how many seconds of silence a peer's system is asked whether it is still there (RFC 9293, 3.8.4).
pub(crate) const KEEPALIVE_IDLE: u32 = 10;

/// How many seconds after that it is asked again.
pub(crate) const KEEPALIVE_DISTANCE: u32 = 5;

/// How often it is asked in all.
pub(crate) const KEEPALIVE_PROBES: u32 = 2;

/// How often a write is tried that signals interrupt.
pub(crate) const MOST_TRIES: u32 = 16;
