//! Limits of a client.

/// How long the reply to a request may take, in milliseconds.
pub(crate) const REPLY_WAIT: u64 = 10_000;

/// The least and the most milliseconds between two requests that keep a session alive.
pub(crate) const KEEPALIVE_LEAST: u64 = 1_000;

pub(crate) const KEEPALIVE_MOST: u64 = 30_000;

/// After how many seconds a session expires whose server doesn't say (RFC 2326, 12.37).
pub(crate) const USUAL_TIMEOUT: u32 = 60;

/// How long the target may be sent nothing, in milliseconds: half a minute, less what a request takes.
pub(crate) const TARGET_INTERVAL: u64 = 25_000;

/// How many redirects a client follows.
pub(crate) const MOST_REDIRECTS: u8 = 3;

/// How many bytes the identifier of a session can have.
pub(crate) const MOST_SESSION_BYTES: usize = 512;

/// How many frames can wait for the target.
pub(crate) const MOST_WAITING_FRAMES: u64 = 4_096;
