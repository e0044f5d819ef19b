//! The steps on the head: each is one step of the ring's core.
ghost use Rattle.core.specs.Prelude.{◌≡◌, ◌+◌, ◌-◌, ◌*◌, ◌<◌, ◌^◌, false, length};
ghost use Rattle.ring_steps.specs.declared.views.PublisherPhase.TheVariants as publishing;
ghost use Rattle.ring_steps.specs.declared.views.SeatPhase.TheVariants as seating;
ghost use Rattle.packet_ring.specs.Steps.{Appends, Closes, IsPublisher, IsSeat, Loads, attached, detached, first_seen, log_of, publisher_of, seat_of, second_seen};

use crate::block::{Play, Shared, Token};

struct Attaching;

impl Play for Attaching {
    // The first operand is the packets back that the seat asks for.
    ghost then = { λ at me found next. Loads (at.units - 2) (attached (at.units - 2) at.first) (seat_of me.view) me found next };
}

struct Detaching;

impl Play for Detaching {
    ghost then = { λ at me found next. Loads (at.units - 2) detached (seat_of me.view) me found next };
}

struct Finding;

impl Play for Finding {
    ghost then = { λ at me found next. Loads (at.units - 2) (first_seen (at.units - 2)) (seat_of me.view) me found next };
}

struct Losing;

impl Play for Losing {
    ghost then = { λ at me found next. Loads (at.units - 2) (second_seen (at.units - 2)) (seat_of me.view) me found next };
}

struct Appending;

impl Play for Appending {
    ghost then = { λ at me stored next. Appends (log_of me.view) (publisher_of me.view) me next };
}

struct Closing;

impl Play for Closing {
    ghost then = { λ at me stored next. Closes (log_of me.view) (publisher_of me.view) me next };
}

/// The load of an attachment, so many packets back.
pub(crate) fn attach(block: &Shared, token: &mut Token, back: u64) -> u64
    requires same { (token.old.id ≡ block.now.id) × (1 < block.now.id.units) }
    requires seat { IsSeat token.old.number token.old.me seating.Out }
    ensures same { (token.new.id ≡ token.old.id) × (token.new.number ≡ token.old.number) }
    ensures step { Loads (block.now.id.units - 2) (attached (block.now.id.units - 2) back) (seat_of token.old.me.view) token.old.me result token.new.me }
{
    block.load::<Attaching>(token, 0, 0, back)
}

/// The load of a detachment.
pub(crate) fn detach(block: &Shared, token: &mut Token) -> u64
    requires same { (token.old.id ≡ block.now.id) × (0 < block.now.id.units) }
    requires seat { IsSeat token.old.number token.old.me seating.Between }
    ensures same { (token.new.id ≡ token.old.id) × (token.new.number ≡ token.old.number) }
    ensures step { Loads (block.now.id.units - 2) detached (seat_of token.old.me.view) token.old.me result token.new.me }
{
    block.load::<Detaching>(token, 0, 0, 0)
}

/// A take's first load.
pub(crate) fn load_first(block: &Shared, token: &mut Token) -> u64
    requires same { (token.old.id ≡ block.now.id) × (1 < block.now.id.units) }
    requires seat { IsSeat token.old.number token.old.me seating.Between }
    ensures same { (token.new.id ≡ token.old.id) × (token.new.number ≡ token.old.number) }
    ensures step { Loads (block.now.id.units - 2) (first_seen (block.now.id.units - 2)) (seat_of token.old.me.view) token.old.me result token.new.me }
{
    block.load::<Finding>(token, 0, 0, 0)
}

/// A take's second load, after a pin that failed.
pub(crate) fn load_second(block: &Shared, token: &mut Token) -> u64
    requires same { (token.old.id ≡ block.now.id) × (1 < block.now.id.units) }
    requires seat { IsSeat token.old.number token.old.me seating.Missed }
    ensures same { (token.new.id ≡ token.old.id) × (token.new.number ≡ token.old.number) }
    ensures step { Loads (block.now.id.units - 2) (second_seen (block.now.id.units - 2)) (seat_of token.old.me.view) token.old.me result token.new.me }
{
    block.load::<Losing>(token, 0, 0, 0)
}

/// The store of an append, of the head with one packet more.
pub(crate) fn append(block: &Shared, token: &mut Token, len: u64)
    requires same { (token.old.id ≡ block.now.id) × (0 < block.now.id.units) }
    requires publisher { IsPublisher token.old.number token.old.me publishing.Finished }
    requires len { (len ≡ length (log_of token.old.me.view)) × (len < 2 ^ 46) }
    ensures same { (token.new.id ≡ token.old.id) × (token.new.number ≡ token.old.number) }
    ensures step { Appends (log_of token.old.me.view) (publisher_of token.old.me.view) token.old.me token.new.me }
{
    block.store::<Appending>(token, 0, 0, 2 * (len + 1));
}

/// The store of a close, of the head with its closed bit.
pub(crate) fn close(block: &Shared, token: &mut Token, len: u64)
    requires same { (token.old.id ≡ block.now.id) × (0 < block.now.id.units) }
    requires publisher { IsPublisher token.old.number token.old.me publishing.Between × ((publisher_of token.old.me.view).closed ≡ false) }
    requires len { (len ≡ length (log_of token.old.me.view)) × (len < 2 ^ 47) }
    ensures same { (token.new.id ≡ token.old.id) × (token.new.number ≡ token.old.number) }
    ensures step { Closes (log_of token.old.me.view) (publisher_of token.old.me.view) token.old.me token.new.me }
{
    block.store::<Closing>(token, 0, 0, 2 * len + 1);
}
