//! The limits of connections that a peer or an operator can meet. What happens at each, and what changes it, is in
//! `docs/LIMITS.md`.

/// How long the server waits after it couldn't accept, in milliseconds, so that a lack of descriptors doesn't keep it
/// busy.
pub(crate) const AFTER_NO_ACCEPT: u64 = 100;

/// How many connections may have a thread: a little more than a book's, since those that are closed after a last text have left
/// it.
pub(crate) const MOST_LIVE: u64 = 1_088;

/// How many refused peers are given time to read why. One more takes the place of the first.
pub(crate) const REFUSED_PEERS: usize = 64;

/// For how many milliseconds a refused peer's connection stays, so that it reads why.
pub(crate) const REFUSED_STAYS: u64 = 100;

/// For how many milliseconds a connection from a proxy may take until its header is whole.
pub(crate) const HEADER_WAIT: u64 = 2_000;

/// How long the last look at a header's bytes waits after that, in microseconds: a process that was held finds them there.
pub(crate) const LAST_LOOK: u64 = 1_000;

/// How often a refused peer is read before it is closed: what it has sent and is never read would reset the connection.
pub(crate) const REFUSED_READS: u32 = 4;

/// For how many milliseconds a server that stops waits for its connections' ends, and a thread that logs for room.
pub(crate) const STOPS: u64 = 2_000;

/// How long the end of a server waits for its last lines to be written, in milliseconds.
pub(crate) const LAST_LINES: u64 = 1_000;
