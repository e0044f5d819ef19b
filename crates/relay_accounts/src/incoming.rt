//! What comes in between a connection's requests.
ghost use Rattle.std.specs.Prelude.{List, Option};
ghost use Rattle.transport_header.specs.declared.point.Point.{Point};
ghost use Rattle.publisher.specs.FramesIn.{RelaysSeen};
ghost use Rattle.relay_accounts.specs.Incoming.{DropsFrames};

use crate::counts::Counts;
use crate::last_activity::LastActivity;
use cursor::Feed;
use interleaved::Source;
use publisher::{FateObserver, InReport, InStop, relay_in_observed};
use rtsp_message::{Intake, Next, Unit};
use transport_header::{MOST_TRACKS, TrackChannels};

/// Publishes frames until a message, the end or a fault, by `relay_in`. Nothing reads its points: the feed posts each
/// as soon as its packet is in. The observer sees each frame's fate as it comes.
pub fn publish_frames<S: Source + Drop, F: Feed, O: FateObserver>(
    intake: &mut Intake<S>,
    feed: &mut F,
    channels: &TrackChannels,
    observer: &mut O,
) -> InReport
    ensures { (old_points new_points : List (Option Point)) × RelaysSeen S.incoming S.failed F.publish_gives O.observes channels.now (F.packet_bytes feed.old) F.may_refuse intake.old intake.new feed.old feed.new (F.told feed.old) (F.told feed.new) old_points new_points observer.old observer.new result }
{
    let mut points = [None; MOST_TRACKS];
    // Read for the proof alone: no more tracks than there are places are set up.
    let _pair = channels.pair_of(0);
    relay_in_observed(intake, feed, channels, &mut points, observer)
}

/// Drops frames until a message, the end or a fault, counts each as a stranger and notes it as heard.
pub fn skip_frames<S: Source + Drop>(
    intake: &mut Intake<S>,
    counts: &mut Counts,
    heard: &LastActivity,
) -> InStop
    ensures { DropsFrames S.incoming S.failed intake.old intake.new counts.old counts.new result }
{
    // Both are read for the proof alone: no more frames than are left can come, and the count is within its range.
    let _most = intake.left();
    let _counted = counts.strangers;
    loop {
        match intake.next() {
            Next::Unit(Unit::Frame(_)) => {
                counts.add_stranger();
                heard.note();
            }
            Next::Unit(Unit::Message(request)) => return InStop::Message(request),
            Next::End => return InStop::End,
            Next::Fault(fault) => return InStop::Fault(fault),
            Next::ReadFailed => return InStop::ReadFailed,
            Next::OutOfMemory => return InStop::OutOfMemory,
        }
    }
}
