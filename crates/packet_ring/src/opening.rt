//! How a ring is made.
ghost use Rattle.std.specs.Prelude.{◌≡◌, ◌+◌, ◌*◌, ◌%◌, ◌^◌, ◌<◌, ◌≤◌, [], length, replicate, IfOk};
ghost use Rattle.std.specs.Arc.{arc_value};
ghost use Rattle.packet_ring.specs.Rule.{seat_views};
ghost use Rattle.packet_ring.specs.Views.{HasOwnLines, block_bytes, keep_of, new_pass, packet_bytes_of, seats_of};

use crate::allocated::Block;
use crate::block::Spares;
use crate::passes::Pass;
use crate::publishers::Publisher;
use std::alloc::{AllocError, Global};
use std::sync::Arc;

#[tactic(auto, using(crate::proofs::Lines::own_lines, crate::proofs::Lines::few_bytes))]
/// A ring that keeps `keep` packets of at most `packet_bytes` bytes each, with its publisher and a pass
/// for each of its seats. No two of the words that its threads share lie in one cache line of 64 bytes.
/// No other call of this crate takes memory.
pub fn new(
    alloc: Global,
    keep: usize,
    seats: usize,
    packet_bytes: usize,
) -> Result<(Publisher, Vec<Pass>), AllocError>
    requires keep { (1 ≤ keep) × (keep ≤ 4095) }
    requires seats { seats ≤ 1024 }
    requires packet_bytes { (1 ≤ packet_bytes) × (packet_bytes ≤ 65535) }
    ensures sizes { IfOk result (λ r. (keep_of r.0.ring ≡ keep) × (seats_of r.0.ring ≡ seats) × (packet_bytes_of r.0.ring ≡ packet_bytes)) }
    ensures lines { IfOk result (λ r. HasOwnLines r.0.ring) }
    ensures room { IfOk result (λ r. block_bytes r.0.ring ≤ (keep + 2) * (packet_bytes + 71)) }
    ensures publisher { IfOk result (λ r. (r.0.log ≡ []) × (r.0.failed ≡ 0) × (r.0.pins ≡ 0)) }
    ensures passes { IfOk result (λ r. r.1.items ≡ replicate seats (new_pass r.0.ring)) }
{
    let (block, spares) = Block::new(alloc, keep, seats, room_for(packet_bytes), packet_bytes)?;
    let ring = Arc::new(alloc, block)?;
    let (token, spares) = spares.take();
    let passes = passes(alloc, &ring, spares, seats)?;
    let publisher = Publisher {
        ring,
        token,
        count: 0,
    };
    Ok((publisher, passes))
}

/// How many places for bytes a slot has, in eights.
fn room_for(packet_bytes: usize) -> usize
    requires { packet_bytes ≤ 65535 }
    ensures fits { packet_bytes ≤ 8 * result }
    ensures narrow { result ≤ 8192 }
    ensures room { 8 * result ≤ packet_bytes + 7 }
{
    packet_bytes.div_ceil(8)
}

/// A pass for each seat of a new ring.
fn passes(
    alloc: Global,
    ring: &Arc<Block, Global>,
    spares: Spares,
    seats: usize,
) -> Result<Vec<Pass>, AllocError>
    requires { (spares.id ≡ (arc_value ring.now).shared.id) × (spares.next ≡ 1) × (spares.views ≡ seat_views seats) }
    ensures { IfOk result (λ r. r.items ≡ replicate seats (new_pass (arc_value ring.now).shared.id)) }
{
    let mut passes = Vec::with_capacity(alloc, seats)?;
    let mut rest = spares;
    for _ in 0..seats {
        let (token, others) = rest.take();
        rest = others;
        passes.push(Pass {
            ring: Arc::try_clone(ring)?,
            token,
            known: 0,
        })?;
    }
    Ok(passes)
}
