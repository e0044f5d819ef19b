//! The kinds of ends of connections that aren't logged one by one if too many come.
ghost use Rattle.std.specs.Prelude.{◌≡◌, ◌<◌, IfSome};
ghost use Rattle.relay_log.specs.Places.{place_of_end};

use relay_accounts::ConnectionEnd;

/// The kinds of ends that a warning reports, each at its place.
pub(crate) const ENDS: [&str; 12] = [
    "stream fault",
    "read failed",
    "write failed",
    "out of memory",
    "no thread",
    "session expired",
    "silent without a session",
    "left by a reset",
    "no acknowledgement",
    "silent while recording",
    "no SETUP",
    "no PROXY header",
];

/// The place of an end among them. `None` for a good one.
pub(crate) fn place_of(end: ConnectionEnd) -> Option<usize>
    ensures place { result ≡ place_of_end end }
    ensures within { IfSome result (λ place. place < 12) }
{
    match end {
        ConnectionEnd::Done => None,
        ConnectionEnd::StreamFault(_) => Some(0),
        ConnectionEnd::ReadFailed => Some(1),
        ConnectionEnd::WriteFailed => Some(2),
        ConnectionEnd::OutOfMemory => Some(3),
        ConnectionEnd::NoThread => Some(4),
        ConnectionEnd::Expired => Some(5),
        ConnectionEnd::Idle => Some(6),
        ConnectionEnd::Reset => Some(7),
        ConnectionEnd::NoAcknowledgement => Some(8),
        ConnectionEnd::Silent => Some(9),
        ConnectionEnd::NotSetUp => Some(10),
        ConnectionEnd::NoHeader(_) => Some(11),
    }
}
