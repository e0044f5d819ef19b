//! The publisher's calls, each a row of its steps.
ghost use Rattle.std.specs.Prelude.{◌≡◌, ◌+◌, ◌-◌, ◌*◌, ◌%◌, ◌^◌, ◌<◌, ◌≤◌, ◌∷◌, ℕ, List, false, length, IfOk, IfErr};
ghost use Rattle.ring_steps.specs.declared.views.PublisherPhase.TheVariants as publishing;
ghost use Rattle.ring_steps.specs.declared.views.SeatPhase.TheVariants as seating;
ghost use Rattle.packet_ring.specs.Steps.{IsPublisher, IsSeat, log_of, publisher_of};
ghost use Rattle.packet_ring.specs.Table.{may_end, no_right};
ghost use Rattle.packet_ring.specs.Tokens.{Pinned, Published};

use crate::block::{Shared, Token};
use crate::head::append;
use crate::packets::put;
use crate::places::Base;
use crate::sending::{begin, begin_beside, finish};
use crate::words::{CELLS, NUMBER, WRITING, start_of};
use std::marker::Brand;

/// Publishes a packet in a ring that keeps `keep` of them, after `count` others. It is refused where
/// its slot is pinned, with the pins that stood there.
pub(crate) fn publish(
    block: &Shared,
    token: &mut Token,
    base: Base<u64>,
    keep: usize,
    room: usize,
    count: u64,
    tag: u8,
    bytes: &[u8],
) -> Result<(), u64>
    requires same { (token.old.id ≡ block.now.id) × (block.now.id.units ≡ keep + 2) × (block.now.id.width ≡ 7) × (block.now.id.room ≡ room) × (base.ptr ≡ block.now.base) }
    requires sizes { (keep ≤ 4095) × (room ≤ 8192) × (length bytes.now ≤ 8 * room) × (length bytes.now + 1 ≤ block.now.id.limits.1) }
    requires publisher { IsPublisher token.old.number token.old.me publishing.Between × (token.old.me.right ≡ no_right) × ((publisher_of token.old.me.view).closed ≡ false) }
    requires count { (count ≡ length (log_of token.old.me.view)) × (count < 2 ^ 46) }
    ensures same { (token.new.id ≡ token.old.id) × (token.new.number ≡ token.old.number) }
    ensures published { IfOk result (λ _. Published (tag ∷ bytes.now) token.old.me token.new.me) }
    ensures pinned { IfErr result (λ pins. Pinned block.now.id.limits.0 pins token.old.me token.new.me) }
{
    let unit = unit_of(keep, count);
    let known = known_word(keep, count);
    let found = begin::<Brand>(block, token, unit, unit * (CELLS + 1), known, tag, bytes);
    if found != known {
        return Err(found % WRITING);
    }
    fill(block, token, base, keep, room, count, tag, bytes);
    Ok(())
}

/// The same publish while the ring's one seat is at hand between two calls. It is never refused.
pub(crate) fn publish_beside(
    block: &Shared,
    token: &mut Token,
    seat: &mut Token,
    base: Base<u64>,
    keep: usize,
    room: usize,
    count: u64,
    tag: u8,
    bytes: &[u8],
)
    requires same { (token.old.id ≡ block.now.id) × (block.now.id.units ≡ keep + 2) × (block.now.id.width ≡ 7) × (block.now.id.room ≡ room) × (base.ptr ≡ block.now.base) }
    requires sizes { (keep ≤ 4095) × (room ≤ 8192) × (length bytes.now ≤ 8 * room) × (length bytes.now + 1 ≤ block.now.id.limits.1) }
    requires publisher { IsPublisher token.old.number token.old.me publishing.Between × (token.old.me.right ≡ no_right) × ((publisher_of token.old.me.view).closed ≡ false) }
    requires count { (count ≡ length (log_of token.old.me.view)) × (count < 2 ^ 46) }
    requires seat { (seat.old.id ≡ block.now.id) × IsSeat seat.old.number seat.old.me seating.Between × (block.now.id.limits.0 ≡ 1) }
    ensures same { (token.new.id ≡ token.old.id) × (token.new.number ≡ token.old.number) × (seat.new ≡ seat.old) }
    ensures published { Published (tag ∷ bytes.now) token.old.me token.new.me }
{
    let unit = unit_of(keep, count);
    let known = known_word(keep, count);
    let _known = begin_beside::<Brand>(
        block,
        token,
        seat,
        unit,
        unit * (CELLS + 1),
        known,
        tag,
        bytes,
    );
    fill(block, token, base, keep, room, count, tag, bytes);
}

/// The unit of the slot where the packet after `count` others goes.
fn unit_of(keep: usize, count: u64) -> usize
    requires { (keep ≤ 4095) × (count < 2 ^ 46) }
    ensures { result ≡ count % (keep + 1) + 1 }
{
    (count % (keep as u64 + 1)) as usize + 1
}

/// The word that the publisher knows there: that of the packet which the ring then stops keeping.
fn known_word(keep: usize, count: u64) -> u64
    requires { (keep ≤ 4095) × (count < 2 ^ 46) }
    ensures { result ≡ 131072 * (count - keep) }
{
    NUMBER * count.saturating_sub(keep as u64)
}

/// Writes the packet to the slot that was begun for it, finishes the slot and appends the packet to the log.
fn fill(
    block: &Shared,
    token: &mut Token,
    base: Base<u64>,
    keep: usize,
    room: usize,
    count: u64,
    tag: u8,
    bytes: &[u8],
)
    requires same { (token.old.id ≡ block.now.id) × (block.now.id.units ≡ keep + 2) × (block.now.id.width ≡ 7) × (block.now.id.room ≡ room) × (base.ptr ≡ block.now.base) }
    requires sizes { (keep ≤ 4095) × (room ≤ 8192) × (length bytes.now ≤ 8 * room) × (length bytes.now + 1 ≤ block.now.id.limits.1) }
    requires publisher { IsPublisher token.old.number token.old.me publishing.Begun × ((publisher_of token.old.me.view).packet ≡ tag ∷ bytes.now) × ((publisher_of token.old.me.view).closed ≡ false) }
    requires right { (cells : List ℕ) × (token.old.me.right ≡ may_end (count % (keep + 1) + 1) cells) }
    requires count { (count ≡ length (log_of token.old.me.view)) × (count < 2 ^ 46) }
    ensures same { (token.new.id ≡ token.old.id) × (token.new.number ≡ token.old.number) }
    ensures published { Published (tag ∷ bytes.now) token.old.me token.new.me }
{
    let unit = unit_of(keep, count);
    let at = unit * (CELLS + 1);
    let oldest = count.saturating_sub(keep as u64);
    token.settle();
    let start = start_of(keep, room, unit);
    put(block, token, base, unit, at + 1, start, tag, bytes);
    block.renew(token);
    finish(
        block,
        token,
        unit,
        at,
        NUMBER * (count + 1 - oldest) - WRITING,
    );
    append(block, token, count);
}
