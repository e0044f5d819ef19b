//! One of the two connections of a try, as streams of bytes.
ghost use Rattle.std.specs.Prelude.{◌≡◌};
ghost use Rattle.pull_session.specs.Tries.{new_line};

use outgoing::Outgoing;
use rtsp_message::{Peer, PeerReader};
use std::alloc::Global;

/// A connection: what is read of the bytes that come, and what waits to be written.
#[derive(Drop)]
pub struct Line {
    pub(crate) reader: PeerReader,
    pub(crate) waiting: Outgoing,
    /// Whether the server has closed it.
    pub(crate) is_closed: bool,
}

impl Line {
    /// Nothing came, and nothing waits.
    pub(crate) fn new(alloc: Global) -> Line
        ensures { result ≡ new_line }
    {
        Line {
            reader: PeerReader::new(alloc, Peer::Server),
            waiting: Outgoing::new(alloc),
            is_closed: false,
        }
    }
}
