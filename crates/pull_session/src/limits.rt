//! Limits of a try.

/// For how long the target can take no byte while some wait for it, in milliseconds.
pub(crate) const TARGET_WAIT: u64 = 20_000;

/// For how long replies to TEARDOWN are waited for, in milliseconds.
pub(crate) const CLOSING_WAIT: u64 = 1_000;

/// For how long the source is read, after a time in which it wasn't, before a reply counts as late, in milliseconds.
pub(crate) const READING_WAIT: u64 = 1_000;

/// How many requests are sent at a time.
pub(crate) const MOST_ASKS: usize = 4;

/// How many notes are kept for the program. Further ones are dropped.
pub(crate) const MOST_NOTES: usize = 64;

/// Blocks of this length or longer are exchanged, in bytes, and this number of bytes is read of the source at a time.
pub const BLOCK_BYTES: usize = 65_536;
