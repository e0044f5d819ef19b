//! What the ring's seat knows of the log.
ghost use Rattle.std.specs.Prelude.{◌≡◌, false};
ghost use mathlib.Core.List.{IsPrefix};
ghost use Rattle.packet_ring.specs.Players.{Learns};

use packet_ring::{Publisher, Subscriber};

/// Shows that what the seat knows of the log was published, and that the log isn't closed.
pub(crate) fn knows_published(publisher: &mut Publisher, seat: &mut Subscriber)
    requires { seat.old.ring ≡ publisher.old.ring }
    ensures published { IsPrefix seat.old.seen publisher.old.log }
    ensures open { seat.old.closed ≡ false }
    ensures same { publisher.new ≡ publisher.old }
    ensures same_seat { seat.new ≡ seat.old }
{
    let known = seat.known_log();
    publisher.has_published(&known);
}

/// Tells the seat of all that was published, so that it knows the whole log.
pub(crate) fn learn_published(publisher: &mut Publisher, seat: &mut Subscriber)
    requires { seat.old.ring ≡ publisher.old.ring }
    ensures learns { Learns seat.old seat.new }
    ensures whole { seat.new.seen ≡ publisher.new.log }
    ensures same { publisher.new ≡ publisher.old }
{
    knows_published(publisher, seat);
    let known = publisher.known_log();
    seat.learn_known(&known);
}
