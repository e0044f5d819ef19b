//! The steps of a seat on a slot's word: each is one step of the ring's core.
ghost use Rattle.std.specs.Prelude.{◌≡◌, ◌+◌, ◌-◌, ◌*◌, ◌%◌, ◌<◌, Some, slice_get};
ghost use Rattle.ring_steps.specs.Ring.{cursor};
ghost use Rattle.ring_steps.specs.declared.views.SeatPhase.TheVariants as seating;
ghost use Rattle.packet_ring.specs.Steps.{IsSeat, MayRead, Pins, Unpins, missed, next_packet, seat_of, took};
ghost use Rattle.packet_ring.specs.Table.{no_right};

use crate::block::{Play, Shared, Token};

struct Pinning;

impl Play for Pinning {
    ghost then = { λ at me found next. Pins at.limits.1 at.unit (seat_of me.view) me found next };
}

struct Missing;

impl Play for Missing {
    ghost then = { λ at me found next. Unpins (missed (seat_of me.view)) me next };
}

struct Taking;

impl Play for Taking {
    ghost then = { λ at me found next. Unpins (took (seat_of me.view) (next_packet me)) me next };
}

/// The pin of the slot of the packet at the cursor.
pub(crate) fn pin(block: &Shared, token: &mut Token, unit: usize, at: usize) -> u64
    requires same { (token.old.id ≡ block.now.id) × (1 < block.now.id.units) }
    requires seat { IsSeat token.old.number token.old.me seating.Found × (token.old.me.right ≡ no_right) }
    requires unit { (unit ≡ cursor (seat_of token.old.me.view) % (block.now.id.units - 2 + 1) + 1) × (unit < block.now.id.units) × (at ≡ unit * (block.now.id.width + 1)) }
    ensures same { (token.new.id ≡ token.old.id) × (token.new.number ≡ token.old.number) }
    ensures step { Pins block.now.id.limits.1 unit (seat_of token.old.me.view) token.old.me result token.new.me }
{
    block.fetch_add::<Pinning>(token, unit, at, 1)
}

/// The unpin after a pin that failed.
pub(crate) fn unpin_failed(block: &Shared, token: &mut Token, unit: usize, at: usize) -> u64
    requires same { (token.old.id ≡ block.now.id) × (1 < block.now.id.units) }
    requires seat { IsSeat token.old.number token.old.me seating.Failed × (token.old.me.right ≡ no_right) }
    requires unit { (unit ≡ cursor (seat_of token.old.me.view) % (block.now.id.units - 2 + 1) + 1) × (unit < block.now.id.units) × (at ≡ unit * (block.now.id.width + 1)) }
    ensures same { (token.new.id ≡ token.old.id) × (token.new.number ≡ token.old.number) }
    ensures step { Unpins (missed (seat_of token.old.me.view)) token.old.me token.new.me }
{
    block.fetch_sub::<Missing>(token, unit, at, 1)
}

/// The unpin after the packet at the cursor was read.
pub(crate) fn unpin(block: &Shared, token: &mut Token, unit: usize, at: usize) -> u64
    requires same { (token.old.id ≡ block.now.id) × (1 < block.now.id.units) }
    requires seat { IsSeat token.old.number token.old.me seating.Holding × MayRead token.old.me.right unit }
    requires unit { (unit ≡ cursor (seat_of token.old.me.view) % (block.now.id.units - 2 + 1) + 1) × (unit < block.now.id.units) × (at ≡ unit * (block.now.id.width + 1)) }
    requires packet { slice_get token.old.me.seen (cursor (seat_of token.old.me.view)) ≡ Some (next_packet token.old.me) }
    ensures same { (token.new.id ≡ token.old.id) × (token.new.number ≡ token.old.number) }
    ensures step { Unpins (took (seat_of token.old.me.view) (next_packet token.old.me)) token.old.me token.new.me }
{
    block.fetch_sub::<Taking>(token, unit, at, 1)
}
