//! The block with the right to free it.
ghost use Rattle.std.specs.Prelude.{◌≡◌, ◌+◌, ◌-◌, ◌*◌, ◌≤◌, ◌++◌, Some, None, length, replicate, IfOk};
ghost use Rattle.packet_ring.specs.Rule.{fresh_views};
ghost use Rattle.packet_ring.specs.Views.{HasSizes};

use crate::block::{Shared, Spares};
use crate::places::{Base, Deed, Places, allocate, deallocate};
use crate::words::CELLS;
use std::alloc::{AllocError, Global};

/// The ring's one block of memory. It is freed when the last of its owners is gone.
pub(crate) struct Block {
    pub(crate) shared: Shared,
    pub(crate) start: Base<u64>,
    /// How many packets the ring keeps.
    pub(crate) keep: usize,
    /// How many places for bytes a slot has, in eights.
    pub(crate) room: usize,
    /// The longest packet that the ring takes, in bytes.
    pub(crate) packet_bytes: usize,
    places: usize,
    deed: Deed<u64, Global>,
    heap: Global,
    pub(crate) ghost sizes: { HasSizes shared.id keep room packet_bytes },
    pub(crate) ghost starts: { start.ptr ≡ shared.base },
    ghost counted: { places ≡ shared.id.units * (shared.id.width + 1) + shared.id.units * shared.id.room },
    ghost owed: { (deed.at ≡ shared.base) × (deed.len ≡ places) × (deed.alloc ≡ heap) },
}

// The first places, which are empty, get a 0 each.
fn fill(places: &mut Places<u64>, start: Base<u64>, words: usize, all: usize)
    requires { (places.old.at ≡ start.ptr) × (places.old.slots ≡ replicate all None) × (words ≤ all) }
    ensures { (places.new.at ≡ places.old.at) × (places.new.slots ≡ replicate words (Some 0) ++ replicate (all - words) None) }
{
    let _ = all;
    let mut i = 0;
    while i < words {
        places.write(start, i, 0);
        i += 1;
    }
}

impl Block {
    /// A block for a ring that keeps `keep` packets, with a token for its publisher and one for each
    /// seat. A slot has `room` times eight places for bytes, which are empty until they are written, and
    /// a packet at most `packet_bytes` bytes.
    pub(crate) fn new(
        alloc: Global,
        keep: usize,
        seats: usize,
        room: usize,
        packet_bytes: usize,
    ) -> Result<(Block, Spares), AllocError>
        requires ring { (1 ≤ keep) × (keep ≤ 4095) × (seats ≤ 1024) }
        requires packet { (packet_bytes ≤ 65535) × (room ≤ 8192) × (packet_bytes ≤ 8 * room) }
        ensures block { IfOk result (λ r. (r.0.shared.id.units ≡ keep + 2) × (r.0.shared.id.width ≡ 7) × (r.0.shared.id.room ≡ room) × (r.0.shared.id.limits ≡ (seats, packet_bytes + 1))) }
        ensures spares { IfOk result (λ r. (r.1.id ≡ r.0.shared.id) × (r.1.next ≡ 0) × (r.1.views ≡ fresh_views seats)) }
    {
        let words = (keep + 2) * (CELLS + 1);
        let all = words + (keep + 2) * room;
        let (start, mut places, deed) = allocate(&alloc, all)?;
        fill(&mut places, start, words, all);
        let most = packet_bytes + 1;
        let (shared, spares) = Shared::deal(start, places, keep, seats, CELLS, room, most);
        let block = Block {
            shared,
            start,
            keep,
            room,
            packet_bytes,
            places: all,
            deed,
            heap: alloc,
        };
        Ok((block, spares))
    }
}

impl Drop for Block {
    fn drop(self) {
        let Block {
            shared,
            start: _,
            keep: _,
            room: _,
            packet_bytes: _,
            places,
            deed,
            heap,
        } = self;
        let (start, owner) = shared.gather();
        deallocate(&heap, start, places, owner, deed);
    }
}
