//! How a frame thread's packets come from the ring to the sink.
ghost use Rattle.std.specs.Prelude.{IfOk};
ghost use Rattle.relay_fanout.specs.Ways.{HasRoom};

use std::alloc::{AllocError, Global};

/// How a frame thread's packets come from the ring to the sink.
#[derive(Drop)]
pub enum Way {
    /// Through a buffer of the player's own, so that no publish waits for the peer.
    Copied(Vec<u8>),
    /// From where they lie in the ring, whose next packet waits while the peer takes nothing.
    Direct,
}

impl Way {
    /// The way for packets of at most `packet_bytes` bytes.
    pub(crate) fn new(
        alloc: Global,
        is_direct: bool,
        packet_bytes: usize,
    ) -> Result<Way, AllocError>
        ensures room { IfOk result (λ way. HasRoom way packet_bytes) }
    {
        if is_direct {
            return Ok(Way::Direct);
        }
        Ok(Way::Copied(Vec::from_elem(alloc, 0, packet_bytes)?))
    }
}
