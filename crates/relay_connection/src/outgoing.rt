//! Where the replies and frames of a connection go.
use interleaved::Sink;
use relay_fanout::{Writers, WritingSide};
use std::alloc::Global;
use std::sync::Arc;

/// Where a connection's replies and frames go: its writing side, what ends it, and the writers that send its frames, or `None` if a
/// thread of its own does.
#[derive(Drop)]
pub struct Outgoing<T, W: Sink, H> {
    pub writing: WritingSide<W>,
    pub shutdown: H,
    pub writers: Option<Arc<Writers<T, W, H>, Global>>,
}
