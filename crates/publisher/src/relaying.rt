//! Frames of a stream as packets.
ghost use Rattle.std.specs.Prelude.{◌≡◌, ◌≤◌, ◌+◌, ℕ, length};
ghost use Rattle.rtsp_message.specs.Intakes.{weight};
ghost use Rattle.cursor.specs.declared.refusals.Refused.TheVariants.{Pinned, Worn, OutOfMemory};
ghost use Rattle.publisher.specs.FramesIn.{HasPlaces, RelaysIn, RelaysSeen, StaysOver, handed_out};

use crate::observing::{FateObserver, Unobserved};
use crate::offering::publish_frame;
use crate::report::{InReport, InStop};
use cursor::Feed;
use interleaved::Source;
use rtsp_message::{Intake, Next, Unit};
use transport_header::{Point, TrackChannels};

/// Publishes the frames of a stream until a message, the end or a fault. A frame on a channel of no
/// track is a stranger. A frame on an RTP channel is bad if it is no RTP packet; RTCP isn't checked.
/// The others are offered to the feed, each with the tag of its channel, and counted by the feed's
/// result.
///
/// `points` has a place for each track that is set up, which becomes the point of the last RTP packet
/// published. `MountFeed` of `relay_fanout` also posts each point as soon as its packet is in the log.
/// Over any other feed, as in `talk`, the caller has the points from here alone, all at once when this
/// returns.
pub fn relay_in<S: Source + Drop, F: Feed>(
    intake: &mut Intake<S>,
    feed: &mut F,
    channels: &TrackChannels,
    points: &mut [Option<Point>],
) -> InReport
    requires { HasPlaces channels.now (length points.old) }
    ensures relays { RelaysIn S.incoming S.failed F.publish_gives channels.now (F.packet_bytes feed.old) F.may_refuse intake.old intake.new feed.old feed.new (F.told feed.old) (F.told feed.new) points.old points.new result }
    ensures never_pinned { ((pins : ℕ) → ¬ F.may_refuse (Pinned pins)) → result.pinned ≡ 0 }
    ensures never_worn { ¬ F.may_refuse Worn → result.worn ≡ 0 }
    ensures never_unkept { ¬ F.may_refuse OutOfMemory → result.unkept ≡ 0 }
    ensures same { F.packet_bytes feed.new ≡ F.packet_bytes feed.old }
    ensures ends { weight S.bound intake.new + handed_out result ≤ weight S.bound intake.old }
    ensures for_good { StaysOver S.failed intake.old result }
{
    relay_in_observed(intake, feed, channels, points, &mut Unobserved)
}

/// As `relay_in`, with an observer that sees each frame's fate as it comes. A stream can go on for days, and its reports
/// can't wait until this returns.
pub fn relay_in_observed<S: Source + Drop, F: Feed, O: FateObserver>(
    intake: &mut Intake<S>,
    feed: &mut F,
    channels: &TrackChannels,
    points: &mut [Option<Point>],
    observer: &mut O,
) -> InReport
    requires { HasPlaces channels.now (length points.old) }
    ensures relays { RelaysSeen S.incoming S.failed F.publish_gives O.observes channels.now (F.packet_bytes feed.old) F.may_refuse intake.old intake.new feed.old feed.new (F.told feed.old) (F.told feed.new) points.old points.new observer.old observer.new result }
    ensures never_pinned { ((pins : ℕ) → ¬ F.may_refuse (Pinned pins)) → result.pinned ≡ 0 }
    ensures never_worn { ¬ F.may_refuse Worn → result.worn ≡ 0 }
    ensures never_unkept { ¬ F.may_refuse OutOfMemory → result.unkept ≡ 0 }
    ensures same { F.packet_bytes feed.new ≡ F.packet_bytes feed.old }
    ensures ends { weight S.bound intake.new + handed_out result ≤ weight S.bound intake.old }
    ensures for_good { StaysOver S.failed intake.old result }
{
    relay_frames(intake, feed, channels, points, observer)
}

// The same, without the clauses about the counts of results that the feed never returns.
fn relay_frames<S: Source + Drop, F: Feed, O: FateObserver>(
    intake: &mut Intake<S>,
    feed: &mut F,
    channels: &TrackChannels,
    points: &mut [Option<Point>],
    observer: &mut O,
) -> InReport
    requires { HasPlaces channels.now (length points.old) }
    ensures relays { RelaysSeen S.incoming S.failed F.publish_gives O.observes channels.now (F.packet_bytes feed.old) F.may_refuse intake.old intake.new feed.old feed.new (F.told feed.old) (F.told feed.new) points.old points.new observer.old observer.new result }
    ensures same { F.packet_bytes feed.new ≡ F.packet_bytes feed.old }
    ensures ends { weight S.bound intake.new + handed_out result ≤ weight S.bound intake.old }
    ensures for_good { StaysOver S.failed intake.old result }
{
    // No more frames than this can come, so no count overflows.
    let _most = intake.left();
    let mut report = InReport::new();
    loop {
        match intake.next() {
            Next::Unit(Unit::Frame(frame)) => {
                let fate = publish_frame(&frame, feed, channels, points);
                report.count(fate);
                observer.observe(fate, frame.payload.len());
            }
            Next::Unit(Unit::Message(request)) => {
                return report.stopped(InStop::Message(request));
            }
            Next::End => return report.stopped(InStop::End),
            Next::Fault(fault) => return report.stopped(InStop::Fault(fault)),
            Next::ReadFailed => return report.stopped(InStop::ReadFailed),
            Next::OutOfMemory => return report.stopped(InStop::OutOfMemory),
        }
    }
}
