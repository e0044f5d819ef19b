//! The takes of one turn, and of the end.
ghost use Rattle.std.specs.Prelude.{◌≡◌, ◌≢◌, ◌+◌, ◌<◌, ◌≤◌, true, false, length};
ghost use mathlib.Core.List.{IsPrefix};
ghost use Rattle.cursor.specs.Account.{cursor_of};
ghost use Rattle.packet_ring.specs.Views.{keep_of};
ghost use Rattle.relay_pass.specs.Counts.{counted_takes};
ghost use Rattle.relay_pass.specs.Takes.{TakesMore};

use crate::known::knows_published;
use crate::report::TakeCounts;
use cursor::Tap;
use interleaved::Sink;
use packet_ring::{Publisher, Subscriber};
use player::{OutStop, relay_out_held};
use transport_header::TrackChannels;

/// Makes at most `n` takes, and writes each packet of a track that is set up for the player as one frame.
pub(crate) fn take_turn<W: Sink>(
    publisher: &mut Publisher,
    seat: &mut Subscriber,
    writer: &mut W,
    to: &TrackChannels,
    n: u64,
    went: &mut TakeCounts,
) -> OutStop
    requires ring { seat.old.ring ≡ publisher.old.ring }
    requires some { 1 ≤ n }
    requires counted { counted_takes went.old ≤ cursor_of seat.old.account }
    ensures takes { TakesMore to.now seat.old seat.new (W.written writer.old) (W.written writer.new) went.old went.new result }
    ensures counted { counted_takes went.new ≤ cursor_of seat.new.account }
    ensures published { IsPrefix seat.new.seen publisher.new.log × (seat.new.closed ≡ false) }
    ensures within { cursor_of seat.new.account ≤ length seat.new.seen }
    ensures done { result ≡ OutStop.Done → cursor_of seat.old.account + n ≤ cursor_of seat.new.account }
    ensures empty { result ≡ OutStop.Empty → cursor_of seat.new.account ≡ length seat.new.seen }
    ensures open { result ≢ OutStop.Ended }
    ensures kept { length publisher.old.log ≤ cursor_of seat.old.account + keep_of publisher.old.ring → went.new.lost ≡ went.old.lost }
    ensures failed { result ≡ OutStop.WriteFailed → W.failed writer.new ≡ true }
    ensures works { result ≢ OutStop.WriteFailed → W.failed writer.new ≡ W.failed writer.old }
    ensures same { publisher.new ≡ publisher.old }
{
    let out = relay_out_held(seat, writer, to, n);
    // What was taken is at most the seat's cursor, so no count overflows.
    let _cursor = seat.cursor();
    went.add(&out);
    knows_published(publisher, seat);
    out.stop
}

/// Makes takes, `n` a turn, until there is nothing to take or a write fails. Returns why it has stopped.
pub(crate) fn drain<W: Sink>(
    publisher: &mut Publisher,
    seat: &mut Subscriber,
    writer: &mut W,
    to: &TrackChannels,
    n: u64,
    went: &mut TakeCounts,
) -> OutStop
    requires ring { seat.old.ring ≡ publisher.old.ring }
    requires some { 1 ≤ n }
    requires counted { counted_takes went.old ≤ cursor_of seat.old.account }
    requires uncut { went.old.cut ≡ 0 }
    ensures takes { TakesMore to.now seat.old seat.new (W.written writer.old) (W.written writer.new) went.old went.new result }
    ensures published { IsPrefix seat.new.seen publisher.new.log × (seat.new.closed ≡ false) }
    ensures within { cursor_of seat.new.account ≤ length seat.new.seen }
    ensures empty { result ≡ OutStop.Empty → cursor_of seat.new.account ≡ length seat.new.seen }
    ensures ends { (result ≢ OutStop.Ended) × (result ≢ OutStop.Done) }
    ensures kept { length publisher.old.log ≤ cursor_of seat.old.account + keep_of publisher.old.ring → went.new.lost ≡ went.old.lost }
    ensures failed { result ≡ OutStop.WriteFailed → W.failed writer.new ≡ true }
    ensures works { result ≢ OutStop.WriteFailed → W.failed writer.new ≡ W.failed writer.old }
    ensures same { publisher.new ≡ publisher.old }
{
    loop {
        match take_turn(publisher, seat, writer, to, n, went) {
            OutStop::Done => {}
            OutStop::WriteFailed => return OutStop::WriteFailed,
            OutStop::Empty => return OutStop::Empty,
            OutStop::Ended => return OutStop::Ended,
        }
    }
}
