//! One frame of a publisher.
ghost use Rattle.std.specs.Prelude.{◌≡◌, length};
ghost use Rattle.publisher.specs.Fates.{HasFate, published_as};
ghost use Rattle.publisher.specs.FramesIn.{HasPlaces, GrowsBy, ArePointsAfter, Meets};

use crate::fate::Fate;
use crate::rtp::{is_rtp, point_of};
use cursor::{Feed, Refused};
use interleaved::Frame;
use transport_header::{Point, TrackChannels};

/// Publishes one frame as a packet of its track, and returns its fate:
///
/// - `Stranger`: its channel is that of no track. The feed is unchanged.
/// - `BadRtp`: it is on an RTP channel and isn't an RTP packet. The feed is unchanged.
/// - `Published`: it is the feed's next packet, with the tag of its channel. The point of an RTP packet
///   becomes the point of its track.
/// - `Oversize`, `Pinned`, `Worn`, `Unkept`: the feed refused it, as `TooLong`, `Pinned`, `Worn` or
///   `OutOfMemory`. The log is unchanged.
///
/// `points` has a place for each track that is set up.
pub fn publish_frame<F: Feed>(
    frame: &Frame,
    feed: &mut F,
    channels: &TrackChannels,
    points: &mut [Option<Point>],
) -> Fate
    requires { HasPlaces channels.now (length points.old) }
    ensures fate { HasFate channels.now (F.packet_bytes feed.old) F.may_refuse frame.now result }
    ensures meets { Meets F.publish_gives channels.now frame.now result feed.old feed.new }
    ensures log { GrowsBy (F.told feed.old) (published_as frame.now result) (F.told feed.new) }
    ensures points { ArePointsAfter points.old (published_as frame.now result) points.new }
    ensures same { F.packet_bytes feed.new ≡ F.packet_bytes feed.old }
{
    let Some(tag) = channels.tag_on(frame.channel) else {
        return Fate::Stranger;
    };
    let payload = frame.payload.as_slice();
    let rtp = tag % 2 == 0;
    if rtp && !is_rtp(payload) {
        return Fate::BadRtp;
    }
    match feed.publish(tag, payload) {
        Ok(_) => {
            if rtp {
                points[usize::from(tag / 2)] = Some(point_of(payload));
            }
            Fate::Published { tag }
        }
        Err(Refused::Pinned { .. }) => Fate::Pinned,
        Err(Refused::TooLong) => Fate::Oversize,
        Err(Refused::Worn) => Fate::Worn,
        Err(Refused::OutOfMemory) => Fate::Unkept,
    }
}
