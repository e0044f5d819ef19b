//! What a publisher gives its callers for each packet.
ghost use Rattle.std.specs.Prelude.{◌≡◌, ◌+◌, ◌^◌, ◌<◌, ◌≤◌, length};
ghost use Rattle.packet_ring.specs.Views.{IsReceipted, Receipted, number_of, receipt_of};

use crate::reached::Reached;
use std::marker::Model;

/// That a packet was published, or that the log was closed.
#[derive(Drop)]
pub struct Receipt {
    pub(crate) told: Reached,
    pub(crate) length: u64,
    pub(crate) closed: bool,
}

impl Model for Receipt {
    ghost Value = { Receipted };

    ghost view = { λ r. receipt_of r.told.id r.told.log r.length r.closed };

    ghost invariant = { λ r. IsReceipted r.told.log r.length r.closed };
}

impl Receipt {
    /// The packet's number; the receipt of a close tells the log's length.
    pub fn number(&self) -> u64
        ensures number { result ≡ number_of self.now }
    {
        if self.closed {
            self.length
        } else {
            self.length - 1
        }
    }
}
