//! A pass: from a publisher's stream over a ring to a player.
ghost use Rattle.std.specs.Prelude.{◌≡◌, ◌≢◌, ◌+◌, ◌*◌, ◌<◌, ◌≤◌, true, length};
ghost use Rattle.cursor.specs.Account.{cursor_of};
ghost use Rattle.packet_ring.specs.Views.{keep_of, seats_of};
ghost use Rattle.relay_pass.specs.Counts.{counted_takes};
ghost use Rattle.relay_pass.specs.Passes.{PassesOn, cut_packets};

use crate::known::learn_published;
use crate::pace::Pace;
use crate::publishing::publish_turn;
use crate::report::{FrameCounts, PassReport, PassStop, TakeCounts};
use crate::taking::{drain, take_turn};
use interleaved::{Sink, Source};
use packet_ring::{Publisher, Subscriber};
use player::OutStop;
use rtsp_message::Intake;
use transport_header::TrackChannels;

/// Publishes the frames of a stream to a ring, and writes what the ring's one seat takes from it as frames, until the
/// stream ends or a write fails. Messages are skipped.
///
/// `from` has the channels of the tracks that come in, `to` those on which they go out. A turn publishes at most
/// `pace.frames` frames and then makes at most `pace.takes` takes. The seat learns first what was published before, and when
/// the stream has ended it takes until it has the whole log. After a failed write nothing more is read.
///
/// Nothing is lost if a turn publishes no more than the ring keeps, takes no less than it publishes, and the seat begins at
/// the log's end.
///
/// If a turn takes no less than it publishes and the seat doesn't begin past the log's end, then at the end the seat is less
/// than `pace.frames` packets further behind the log's end than it was at the beginning, also if a write fails.
///
/// If a turn takes no more than it publishes and the seat doesn't begin past the log's end, then at most `pace.frames`
/// packets are published for each `pace.takes` that the seat takes or loses, and `pace.frames` more, also if a write fails.
pub fn pass<S: Source + Drop, W: Sink>(
    intake: &mut Intake<S>,
    publisher: &mut Publisher,
    seat: &mut Subscriber,
    writer: &mut W,
    from: &TrackChannels,
    to: &TrackChannels,
    pace: Pace,
) -> PassReport
    requires one { seats_of publisher.old.ring ≡ 1 }
    requires ring { seat.old.ring ≡ publisher.old.ring }
    requires pace { (1 ≤ pace.frames) × (1 ≤ pace.takes) }
    ensures passes { PassesOn S.incoming S.failed from.now to.now intake.old intake.new publisher.old publisher.new seat.old seat.new (W.written writer.old) (W.written writer.new) result }
    ensures never_pinned { result.came.pinned ≡ 0 }
    ensures never_unkept { result.came.unkept ≡ 0 }
    ensures kept_up { pace.frames ≤ keep_of publisher.old.ring → pace.frames ≤ pace.takes → cursor_of seat.old.account ≡ length publisher.old.log → result.went.lost ≡ 0 }
    ensures in_step { pace.frames ≤ pace.takes → cursor_of seat.old.account ≤ length publisher.old.log → length publisher.new.log + cursor_of seat.old.account < cursor_of seat.new.account + length publisher.old.log + pace.frames }
    ensures in_turns { pace.takes ≤ pace.frames → cursor_of seat.old.account ≤ length publisher.old.log → pace.takes * result.came.published ≤ pace.frames * (counted_takes result.went + cut_packets result.stop + pace.takes) }
    ensures failed { result.stop ≡ PassStop.WriteFailed → W.failed writer.new ≡ true }
    ensures works { result.stop ≢ PassStop.WriteFailed → W.failed writer.new ≡ W.failed writer.old }
{
    // No more frames than this can come, so no count overflows.
    let _most = intake.left();
    learn_published(publisher, seat);
    let mut came = FrameCounts::new();
    let mut went = TakeCounts::new();
    loop {
        let ended = publish_turn(intake, publisher, seat, from, pace.frames, &mut came);
        if let OutStop::WriteFailed = take_turn(
            publisher, seat, writer, to, pace.takes, &mut went,
        ) {
            return PassReport {
                came,
                went,
                stop: PassStop::WriteFailed,
            };
        }
        if let Some(end) = ended {
            let out = drain(publisher, seat, writer, to, pace.takes, &mut went);
            return PassReport {
                came,
                went,
                stop: PassStop::new(end, out),
            };
        }
    }
}
