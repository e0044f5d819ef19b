//! How connections end.
ghost use Rattle.std.specs.Prelude.{◌≡◌};
ghost use Rattle.relay_accounts.specs.Endings.{end_of as connection_end, end_by as end_by_failure, status_of as fault_status};

use crate::header_end::HeaderEnd;
use rtsp_message::{Fault, Status};
use std::fmt;

/// How a connection ended.
#[derive(Clone, Copy, Debug, PartialEq, Eq, Drop)]
pub enum ConnectionEnd {
    /// The peer said nothing more, or its mount has ended and it was to be hung up.
    Done,
    StreamFault(Fault),
    ReadFailed,
    WriteFailed,
    OutOfMemory,
    /// No thread could be started for its frames.
    NoThread,
    /// Its session has expired in silence.
    Expired,
    /// It was silent for too long without a session.
    Idle,
    /// Its peer reset it while it was sent frames.
    Reset,
    /// Its peer's system acknowledged nothing for 20 seconds: neither bytes that were sent to it nor that it is still there.
    NoAcknowledgement,
    /// It recorded, and no whole message or frame came for as long as `--silent` says.
    Silent,
    /// It announced a mount, and set up no track of it for a minute.
    NotSetUp,
    /// It came from a proxy's address, and began with no header.
    NoHeader(HeaderEnd),
}

impl fmt::Display for ConnectionEnd {
    fn fmt<W: fmt::Write>(&self, f: &mut fmt::Formatter<W>) -> fmt::Result {
        match self {
            ConnectionEnd::Done => write!(f, "done"),
            ConnectionEnd::StreamFault(fault) => write!(
                f,
                "stream fault {}: {}",
                fault.number(),
                fault
            ),
            ConnectionEnd::ReadFailed => write!(f, "read failed"),
            ConnectionEnd::WriteFailed => write!(f, "write failed"),
            ConnectionEnd::OutOfMemory => write!(f, "out of memory"),
            ConnectionEnd::NoThread => write!(f, "no thread for its frames"),
            ConnectionEnd::Expired => write!(f, "session expired after 60 s of silence"),
            ConnectionEnd::Idle => write!(f, "silent without a session"),
            ConnectionEnd::Reset => write!(f, "left by a reset"),
            ConnectionEnd::NoAcknowledgement => write!(f, "no acknowledgement for 20 s"),
            ConnectionEnd::Silent => write!(f, "silent while recording"),
            ConnectionEnd::NotSetUp => write!(f, "no SETUP for 60 s after its ANNOUNCE"),
            ConnectionEnd::NoHeader(end) => write!(f, "{end}"),
        }
    }
}

/// Why the frames of a playing connection ended.
#[derive(Clone, Copy, Debug, PartialEq, Eq, Drop)]
pub enum FrameEnd {
    /// They were told to stop.
    Stopped,
    /// The mount has ended, and its last packet was written.
    Ended,
    WriteFailed,
    OutOfMemory,
}

/// How the system ended a connection.
#[derive(Clone, Copy, Debug, PartialEq, Eq, Drop)]
pub enum WireFailure {
    /// The peer reset it, or closed it and reads no more.
    Reset,
    /// The peer's system acknowledged nothing for as long as the system waits for that.
    NoAcknowledgement,
}

/// How a connection ended, from the ends of the thread that read it and of the one that sent its frames. `is_over` if the last
/// packet of its mount was written and the peer was sent the end of its stream: then how the peer left is no failure.
pub fn end_of(read: ConnectionEnd, sent: FrameEnd, is_over: bool) -> ConnectionEnd
    ensures { result ≡ connection_end read sent is_over }
{
    match (read, sent) {
        (ConnectionEnd::StreamFault(_), _)
        | (ConnectionEnd::OutOfMemory, _)
        | (ConnectionEnd::NoThread, _)
        | (ConnectionEnd::Expired, _)
        | (ConnectionEnd::Idle, _)
        | (ConnectionEnd::Reset, _)
        | (ConnectionEnd::NoAcknowledgement, _)
        | (ConnectionEnd::Silent, _)
        | (ConnectionEnd::NotSetUp, _)
        | (ConnectionEnd::NoHeader(_), _) => read,
        (_, FrameEnd::OutOfMemory) => ConnectionEnd::OutOfMemory,
        _ if is_over => ConnectionEnd::Done,
        (_, FrameEnd::WriteFailed) => ConnectionEnd::WriteFailed,
        (_, FrameEnd::Stopped | FrameEnd::Ended) => read,
    }
}

/// How a connection ended that the system has ended, if it has: what failed then failed by that. A peer that acknowledges nothing
/// is reported even if the connection was about to end by itself, since its last bytes never arrived.
pub fn end_by(end: ConnectionEnd, failure: Option<WireFailure>) -> ConnectionEnd
    ensures { result ≡ end_by_failure end failure }
{
    match (end, failure) {
        (ConnectionEnd::ReadFailed | ConnectionEnd::WriteFailed, Some(WireFailure::Reset)) => {
            ConnectionEnd::Reset
        }
        (
            ConnectionEnd::Done | ConnectionEnd::ReadFailed | ConnectionEnd::WriteFailed,
            Some(WireFailure::NoAcknowledgement),
        ) => ConnectionEnd::NoAcknowledgement,
        _ => end,
    }
}

/// What the fixed text after a fault says.
pub fn status_of(fault: Fault) -> Status
    ensures { result ≡ fault_status fault }
{
    match fault {
        Fault::BadLine | Fault::BadHeader | Fault::BadLength => Status::BadRequest,
        Fault::HeadTooLong | Fault::BodyTooLong => Status::RequestEntityTooLarge,
    }
}
