//! What a seat or the publisher knows of its ring's log, for others to compare or to learn.
ghost use Rattle.packet_ring.specs.Views.{IsKnown, Known, known_of};

use crate::reached::Reached;
use std::marker::Model;

/// That a ring's log has begun with these packets: those that were published, or those that a seat saw or was told of. It has
/// the number of packets and none of their bytes, and may go to another thread.
#[derive(Drop)]
pub struct KnownLog {
    pub(crate) told: Reached,
    pub(crate) length: u64,
}

impl Model for KnownLog {
    ghost Value = { Known };

    ghost view = { λ k. known_of k.told.id k.told.log k.length };

    ghost invariant = { λ k. IsKnown k.told.log k.length };
}
