//! A seat's take, a row of its steps.
ghost use Rattle.std.specs.Prelude.{◌≡◌, ◌+◌, ◌-◌, ◌*◌, ◌^◌, ◌<◌, ◌≤◌, length};
ghost use Rattle.ring_steps.specs.declared.views.SeatPhase.TheVariants as seating;
ghost use Rattle.ring_steps.specs.Ring.{cursor};
ghost use Rattle.cursor.specs.Taps.{FitsBuffer};
ghost use Rattle.cursor.specs.Visits.{TakesWith};
ghost use Rattle.packet_ring.specs.Steps.{HasSeen, IsSeat, seat_of};
ghost use Rattle.packet_ring.specs.Table.{no_right};
ghost use Rattle.packet_ring.specs.Tokens.{Takes};

use crate::block::{Shared, Token};
use crate::head::{load_first, load_second};
use crate::packets::show;
use crate::slots::{pin, unpin, unpin_failed};
use crate::words::{CELLS, WRITING, start_of};
use cursor::{Taken, Visit};

/// The next packet of a seat whose next number is `next`, in a ring that keeps `keep`, or why there is
/// none now. A packet is shown to the visitor where it lies. Beside the answer stands the length of the log
/// that its last load saw.
pub(crate) fn take_with<V: Visit>(
    block: &Shared,
    token: &mut Token,
    keep: usize,
    room: usize,
    next: u64,
    visitor: &mut V,
) -> (Taken, u64)
    requires same { (token.old.id ≡ block.now.id) × (block.now.id.units ≡ keep + 2) × (block.now.id.width ≡ 7) × (block.now.id.room ≡ room) }
    requires sizes { (keep ≤ 4095) × (room ≤ 8192) × (block.now.id.limits.1 ≤ 8 * room + 1) × (block.now.id.limits.1 ≤ V.packet_bytes visitor.old + 1) }
    requires seat { IsSeat token.old.number token.old.me seating.Between × (token.old.me.right ≡ no_right) }
    requires next { (next ≡ cursor (seat_of token.old.me.view)) × HasSeen next token.old.me.seen × (next < 2 ^ 62) }
    ensures same { (token.new.id ≡ token.old.id) × (token.new.number ≡ token.old.number) × (V.packet_bytes visitor.new ≡ V.packet_bytes visitor.old) }
    ensures fits { FitsBuffer result.0 (block.now.id.limits.1 - 1) }
    ensures takes { TakesWith (Takes keep result.1) V.see_gives token.old.me visitor.old result.0 token.new.me visitor.new }
{
    let head = load_first(block, token);
    let count = head / 2;
    if count == next {
        let none = if head % 2 == 1 {
            Taken::Ended
        } else {
            Taken::Empty
        };
        return (none, count);
    }
    let oldest = count.saturating_sub(keep as u64);
    if next < oldest {
        return (Taken::Lost(oldest - next), count);
    }
    let unit = (next % (keep as u64 + 1)) as usize + 1;
    let at = unit * (CELLS + 1);
    let word = pin(block, token, unit, at);
    if word / WRITING == 2 * (next + 1) {
        // A publish to this slot is refused until the unpin, so no loop but the visitor's stands before it.
        let start = start_of(keep, room, unit);
        let (tag, len) = show(block, token, unit, at + 1, start, visitor);
        unpin(block, token, unit, at);
        let packet = Taken::Packet {
            number: next,
            tag,
            len,
        };
        return (packet, count);
    }
    unpin_failed(block, token, unit, at);
    let later = load_second(block, token) / 2;
    let lost = later.saturating_sub(keep as u64) - next;
    (Taken::Lost(lost), later)
}
