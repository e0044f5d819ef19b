//! The limits of log lines that an operator can meet. What happens at each is in `docs/LIMITS.md`.

/// How long the last line, which reports how many were dropped, may take, in milliseconds.
pub(crate) const LAST_LINE: u64 = 200;

/// How many lines may wait.
pub(crate) const WAITING_LINES: usize = 1024;

/// How long nothing is logged after the last log line, in milliseconds.
pub(crate) const TALLY_TIME: u64 = 60_000;

/// How many lines may be logged in a second.
pub(crate) const LINES_A_SECOND: u32 = 10;

/// For how many addresses the lines are counted.
pub(crate) const ADDRESSES: usize = 256;

/// How many counts there are at most.
pub(crate) const REFUSED_COUNTS: usize = 128;

/// For how many milliseconds a count is kept after its line.
pub(crate) const REFUSED_KEPT: u64 = 60_000;

/// The most lines of one report. It is also the most ended mounts, and the most ended players, that wait to be reported; the
/// others are in their connections' own lines only.
pub(crate) const REPORT_LINES: usize = 100;

/// How many bytes of a track's media and of its payload format are shown at most.
pub(crate) const SHOWN_BYTES: usize = 64;
