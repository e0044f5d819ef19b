//! The frames of one turn.
ghost use Rattle.std.specs.Prelude.{◌≡◌, ◌+◌, ◌^◌, ◌<◌, ◌≤◌, length, IfNone, IfSome};
ghost use Rattle.rtsp_message.specs.Intakes.{weight};
ghost use Rattle.packet_ring.specs.Views.{seats_of};
ghost use Rattle.publisher.specs.Fates.{total};
ghost use Rattle.relay_pass.specs.Came.{HasEnded};
ghost use Rattle.relay_pass.specs.Counts.{counts_of};
ghost use Rattle.relay_pass.specs.Publishes.{Publishes};

use crate::feeding::publish_one;
use crate::frames::{Incoming, next_frame};
use crate::report::{FrameCounts, StreamEnd};
use interleaved::Source;
use packet_ring::{Publisher, Subscriber};
use rtsp_message::Intake;
use transport_header::TrackChannels;

/// Publishes the stream's next `n` frames, or those before it ends, and counts them by their fates. Returns why the
/// stream has ended, if it has.
pub(crate) fn publish_turn<S: Source + Drop>(
    intake: &mut Intake<S>,
    publisher: &mut Publisher,
    seat: &mut Subscriber,
    from: &TrackChannels,
    n: u64,
    came: &mut FrameCounts,
) -> Option<StreamEnd>
    requires one { seats_of publisher.old.ring ≡ 1 }
    requires ring { seat.old.ring ≡ publisher.old.ring }
    requires some { 1 ≤ n }
    requires few { total (counts_of came.old) + weight S.bound intake.old < 2 ^ 64 }
    ensures publishes { Publishes S.incoming from.now intake.old intake.new publisher.old publisher.new seat.old seat.new came.old came.new }
    ensures ended { IfSome result (HasEnded S.incoming S.failed intake.new) }
    ensures counted { total (counts_of came.new) + weight S.bound intake.new ≤ total (counts_of came.old) + weight S.bound intake.old }
    ensures turn { IfNone result (weight S.bound intake.new + n ≤ weight S.bound intake.old) }
    ensures most { length publisher.new.log ≤ length publisher.old.log + n }
{
    for _ in 0..n {
        match next_frame(intake) {
            Incoming::Frame(frame) => {
                let fate = publish_one(&frame, publisher, seat, from);
                came.count(fate);
            }
            Incoming::Ended(end) => return Some(end),
        }
    }
    None
}
