//! The steps of the publisher on a slot's word: each is one step of the ring's core.
ghost use Rattle.std.specs.Prelude.{◌≡◌, ◌+◌, ◌-◌, ◌*◌, ◌%◌, ◌^◌, ◌<◌, ℕ, List, [], false, length};
ghost use Rattle.ring_steps.specs.declared.views.PublisherPhase.TheVariants as publishing;
ghost use Rattle.ring_steps.specs.declared.views.SeatPhase.TheVariants as seating;
ghost use Rattle.packet_ring.specs.Steps.{Begins, Finishes, IsPublisher, IsSeat, MayEnd, log_of, one_number, publisher_of, writing_bit};
ghost use Rattle.packet_ring.specs.Rule.{IsSized};
ghost use Rattle.packet_ring.specs.Table.{no_right};

use crate::block::{Play, Shared, Token};
use crate::words::WRITING;
use std::marker::{Brand, PhantomData};

/// Which packet is sent. A call of a begin at `Brand` picks the one that it is given.
pub(crate) trait Sends {
    ghost packet: { List ℕ };
}

impl Sends for Brand {
    ghost packet = { [] };
}

struct Beginning<N: Sends> {
    of: PhantomData<N>,
}

impl<N: Sends> Play for Beginning<N> {
    ghost then = { λ at me found next. Begins at.limits.0 at.unit (log_of me.view) (publisher_of me.view) N.packet at.first me found next };
}

// The same where the word is surely the one that the publisher knows.
struct Unpinned<N: Sends> {
    of: PhantomData<N>,
}

impl<N: Sends> Play for Unpinned<N> {
    ghost then = { λ at me found next. Begins at.limits.0 at.unit (log_of me.view) (publisher_of me.view) N.packet at.first me found next × (found ≡ at.first) };
}

struct Finishing;

impl Play for Finishing {
    ghost then = { λ at me found next. Finishes (log_of me.view) (publisher_of me.view) me next };
}

/// The begin of the slot where the next packet goes, with the word that the publisher knows there. The
/// packet is told for the proof alone.
pub(crate) fn begin<N: Sends>(
    block: &Shared,
    token: &mut Token,
    unit: usize,
    at: usize,
    known: u64,
    tag: u8,
    bytes: &[u8],
) -> u64
    requires same { (token.old.id ≡ block.now.id) × (1 < block.now.id.units) }
    requires publisher { IsPublisher token.old.number token.old.me publishing.Between × (token.old.me.right ≡ no_right) × ((publisher_of token.old.me.view).closed ≡ false) }
    requires unit { (unit ≡ length (log_of token.old.me.view) % (block.now.id.units - 2 + 1) + 1) × (unit < block.now.id.units) × (at ≡ unit * (block.now.id.width + 1)) }
    requires packet { IsSized block.now.id.limits.1 N.packet }
    requires known { (known ≡ one_number * (length (log_of token.old.me.view) - (block.now.id.units - 2))) × (known < 2 ^ 63) }
    ensures same { (token.new.id ≡ token.old.id) × (token.new.number ≡ token.old.number) }
    ensures step { Begins block.now.id.limits.0 unit (log_of token.old.me.view) (publisher_of token.old.me.view) N.packet known token.old.me result token.new.me }
{
    let _ = tag;
    let _ = bytes;
    block.compare_exchange::<Beginning<N>>(token, unit, at, known, known + WRITING)
}

/// The same begin while the ring's one seat is at hand between two calls: it has no pin, so the word is the known one.
pub(crate) fn begin_beside<N: Sends>(
    block: &Shared,
    token: &mut Token,
    seat: &mut Token,
    unit: usize,
    at: usize,
    known: u64,
    tag: u8,
    bytes: &[u8],
) -> u64
    requires same { (token.old.id ≡ block.now.id) × (1 < block.now.id.units) }
    requires publisher { IsPublisher token.old.number token.old.me publishing.Between × (token.old.me.right ≡ no_right) × ((publisher_of token.old.me.view).closed ≡ false) }
    requires seat { (seat.old.id ≡ block.now.id) × IsSeat seat.old.number seat.old.me seating.Between × (block.now.id.limits.0 ≡ 1) }
    requires unit { (unit ≡ length (log_of token.old.me.view) % (block.now.id.units - 2 + 1) + 1) × (unit < block.now.id.units) × (at ≡ unit * (block.now.id.width + 1)) }
    requires packet { IsSized block.now.id.limits.1 N.packet }
    requires known { (known ≡ one_number * (length (log_of token.old.me.view) - (block.now.id.units - 2))) × (known < 2 ^ 63) }
    ensures same { (token.new.id ≡ token.old.id) × (token.new.number ≡ token.old.number) × (seat.new ≡ seat.old) }
    ensures step { Begins block.now.id.limits.0 unit (log_of token.old.me.view) (publisher_of token.old.me.view) N.packet known token.old.me known token.new.me }
    ensures known { result ≡ known }
{
    let _ = tag;
    let _ = bytes;
    block.compare_exchange_beside::<Unpinned<N>>(token, seat, unit, at, known, known + WRITING)
}

/// The finish of that slot, once its cells hold the packet.
pub(crate) fn finish(block: &Shared, token: &mut Token, unit: usize, at: usize, k: u64) -> u64
    requires same { (token.old.id ≡ block.now.id) × (1 < block.now.id.units) }
    requires publisher { IsPublisher token.old.number token.old.me publishing.Begun × MayEnd token.old.me.right unit (publisher_of token.old.me.view).packet }
    requires unit { (unit ≡ length (log_of token.old.me.view) % (block.now.id.units - 2 + 1) + 1) × (unit < block.now.id.units) × (at ≡ unit * (block.now.id.width + 1)) }
    requires more { k ≡ one_number * (length (log_of token.old.me.view) + 1 - (length (log_of token.old.me.view) - (block.now.id.units - 2))) - writing_bit }
    ensures same { (token.new.id ≡ token.old.id) × (token.new.number ≡ token.old.number) }
    ensures step { Finishes (log_of token.old.me.view) (publisher_of token.old.me.view) token.old.me token.new.me }
{
    block.fetch_add::<Finishing>(token, unit, at, k)
}
