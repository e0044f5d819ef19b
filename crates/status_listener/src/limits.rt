//! The limits of a status listener.

/// How many connections are open at a time.
pub(crate) const MOST_VISITS: usize = 64;

/// How long a connection has from its accept until its whole request is there, in milliseconds.
pub(crate) const ASKING_TIME: u64 = 2_000;

/// How long a connection has from its whole request until its end, in milliseconds.
pub(crate) const ANSWERING_TIME: u64 = 10_000;

/// How long after a failed accept the next is tried, in milliseconds.
pub(crate) const ACCEPT_RETRY: u64 = 100;

/// How many bytes are discarded after an answer before the connection is closed.
pub(crate) const MOST_DISCARDED: usize = 1024 * 1024;

/// The longest head of a request, in bytes.
pub(crate) const MOST_HEAD_BYTES: usize = 8_192;

/// The least room that a read of a request is given, in bytes.
pub(crate) const READ_BYTES: usize = 2_048;

/// How many bytes a read discards at a time.
pub(crate) const DISCARD_BYTES: usize = 4_096;

/// How many reads and writes a connection has before the others have their turn.
pub(crate) const MOST_CALLS: usize = 64;

/// How many connections are accepted before the others have their turn.
pub(crate) const MOST_ACCEPTS: usize = 64;

/// How many events a wait reports.
pub(crate) const MOST_EVENTS: usize = 128;
