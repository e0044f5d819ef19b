//! One frame for the ring, while its one seat is at hand.
ghost use Rattle.std.specs.Prelude.{◌≡◌};
ghost use Rattle.packet_ring.specs.Calls.{NeverPinned, PublishesNext};
ghost use Rattle.packet_ring.specs.Views.{packet_bytes_of, seats_of};
ghost use Rattle.publisher.specs.Fates.{HasFate};
ghost use Rattle.publisher.specs.FramesIn.{Meets};
ghost use Rattle.relay_pass.specs.Ring.{LearnsLog};

use interleaved::Frame;
use packet_ring::{Publisher, Subscriber, Unpinned};
use publisher::{Fate, publish_frame};
use transport_header::{MOST_TRACKS, TrackChannels};

#[tactic(auto, using(crate::proofs::Learning::seat_learns))]
/// Publishes one frame, of which the ring's one seat learns. Returns the frame's fate.
pub(crate) fn publish_one(
    frame: &Frame,
    publisher: &mut Publisher,
    seat: &mut Subscriber,
    from: &TrackChannels,
) -> Fate
    requires one { seats_of publisher.old.ring ≡ 1 }
    requires ring { seat.old.ring ≡ publisher.old.ring }
    ensures fate { HasFate from.now (packet_bytes_of publisher.old.ring) NeverPinned frame.now result }
    ensures meets { Meets PublishesNext from.now frame.now result publisher.old publisher.new }
    ensures learns { LearnsLog publisher.old.log publisher.new.log seat.old seat.new }
{
    // The points aren't used. They have a place for each of the sixteen tracks.
    let mut points = [None; MOST_TRACKS];
    let _sixteen = from.pair_of(0);
    let mut feed = Unpinned::new(publisher, seat);
    publish_frame(frame, &mut feed, from, &mut points)
}
