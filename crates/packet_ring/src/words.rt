//! Where the parts of a slot's word lie: the pins in its lowest bits, then the writing bit, then the
//! number, which is 0 before the first packet and else one more than its packet's. And where a unit lies.
ghost use Rattle.std.specs.Prelude.{◌≡◌, ◌+◌, ◌^◌, ◌<◌, ◌≤◌};
ghost use Rattle.packet_ring.specs.Lent.{BlockId, bytes_from};

/// The writing bit. The pins lie below it.
pub(crate) const WRITING: u64 = 1 << 16;

/// One more in the number.
pub(crate) const NUMBER: u64 = 1 << 17;

/// How many cells a unit has: the first for the length of its packet, with its tag, and the second for its
/// tag. With its word a unit has 64 bytes, so that no two words share a cache line.
pub(crate) const CELLS: usize = 7;

/// How many bytes from a block's start a unit's places for bytes lie, of which each unit has `room` times
/// eight, in a ring that keeps `keep` packets.
pub(crate) fn start_of(keep: usize, room: usize, unit: usize) -> usize
    requires { (keep ≤ 4095) × (room ≤ 8192) × (unit ≤ 4096) }
    ensures lies { (z : BlockId) → z.units ≡ keep + 2 → z.width ≡ 7 → z.room ≡ room → result ≡ bytes_from z unit }
    ensures near { result < 2 ^ 32 }
{
    unit * (room * 8) + (keep + 2) * (CELLS * 8 + 8)
}
