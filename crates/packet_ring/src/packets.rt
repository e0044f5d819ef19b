//! A packet in a unit: its length in the first cell, its tag in the second, and its bytes in the unit's places.
ghost use Rattle.std.specs.Prelude.{◌≡◌, ℕ, ◌+◌, ◌*◌, ◌^◌, ◌<◌, ◌≤◌, List, ◌∷◌, length};
ghost use Rattle.packet_ring.specs.Lent.{bytes_from};
ghost use Rattle.cursor.specs.Log.{packet_of};
ghost use Rattle.packet_ring.specs.Steps.{HasPacket, MayRead, MayWrite, MayWritePacket, next_packet};
ghost use Rattle.packet_ring.specs.Table.{cells_of};

use crate::block::{Shared, Token};
use crate::places::Base;
use cursor::Visit;

/// Writes a packet into a unit, of which the first cell lies `first` words and the first place `start` bytes
/// from the block's start.
pub(crate) fn put(
    block: &Shared,
    token: &mut Token,
    base: Base<u64>,
    unit: usize,
    first: usize,
    start: usize,
    tag: u8,
    bytes: &[u8],
)
    requires right { (token.old.id ≡ block.now.id) × MayWrite token.old.me.right unit × (base.ptr ≡ block.now.base) }
    requires first { (first ≡ unit * (block.now.id.width + 1) + 1) × (first < 2 ^ 32) × (start ≡ bytes_from block.now.id unit) × (start < 2 ^ 32) }
    requires fits { (length bytes.now ≤ block.now.id.room * 8) × (length bytes.now < 2 ^ 32) × (block.now.id.width ≡ 7) }
    ensures same { (token.new.id ≡ token.old.id) × (token.new.number ≡ token.old.number) }
    ensures knows { (token.new.me.view ≡ token.old.me.view) × (token.new.me.seen ≡ token.old.me.seen) }
    ensures packet { MayWritePacket token.new.me.right unit (tag ∷ bytes.now) }
{
    block.write(token, unit, first, 0, bytes.len() as u64 + 1);
    block.write(token, unit, first + 1, 1, tag as u64);
    let mut copied = 0;
    while copied < bytes.len() {
        block.put(token, base, unit, start + copied, copied, bytes[copied]);
        copied += 1;
    }
}

/// Shows a visitor the packet in a unit, where it lies, and answers its tag and how many bytes it has.
pub(crate) fn show<V: Visit>(
    block: &Shared,
    token: &mut Token,
    unit: usize,
    first: usize,
    start: usize,
    visitor: &mut V,
) -> (u8, usize)
    requires right { (token.old.id ≡ block.now.id) × MayRead token.old.me.right unit × (unit < block.now.id.units) }
    requires first { (first ≡ unit * (block.now.id.width + 1) + 1) × (first < 2 ^ 32) × (start ≡ bytes_from block.now.id unit) × (block.now.id.width ≡ 7) }
    requires packet { HasPacket (cells_of token.old.me.right) (next_packet token.old.me) }
    requires room { (1 ≤ length (next_packet token.old.me)) × (length (next_packet token.old.me) ≤ block.now.id.room * 8 + 1) × (length (next_packet token.old.me) ≤ V.packet_bytes visitor.old + 1) }
    ensures same { (token.new ≡ token.old) × (V.packet_bytes visitor.new ≡ V.packet_bytes visitor.old) }
    ensures packet { (bytes : List ℕ) × (result.0 ∷ bytes ≡ next_packet token.old.me) × (result.1 ≡ length bytes) × V.see_gives visitor.old (packet_of result.0 bytes) visitor.new }
{
    let len = block.read(token, unit, first, 0) as usize - 1;
    let tag = (block.read(token, unit, first + 1, 1) % 256) as u8;
    let bytes = block.lend(token, unit, start, len);
    visitor.see(tag, bytes);
    (tag, len)
}
