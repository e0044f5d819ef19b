//! Packets of a tap as frames.
ghost use Rattle.std.specs.Prelude.{◌≡◌, ◌≢◌, ◌≤◌, true, length};
ghost use Rattle.player.specs.FramesOut.{TakesOut, RelaysOut};

use crate::framing::write_frame;
use crate::report::{OutReport, OutStop, report_of};
use cursor::{Taken, Tap};
use interleaved::{Sink, WriteCut};
use transport_header::TrackChannels;

/// Makes at most `n` takes, and writes each packet of a track that is set up as one frame: RTP on the
/// track's first channel, RTCP on its second. A packet of another track is skipped, and what the tap
/// lost is counted. The first `Empty` or `Ended` is the last take, and so is the packet whose frame the
/// sink doesn't take whole.
///
/// `buf` has room for the tap's longest packet. Takes no memory.
pub fn relay_out<T: Tap, W: Sink>(
    tap: &mut T,
    writer: &mut W,
    channels: &TrackChannels,
    n: u64,
    buf: &mut [u8],
) -> OutReport
    requires { T.packet_bytes tap.old ≤ length buf.old }
    ensures relays { RelaysOut T.take_gives channels.now n tap.old tap.new (W.written writer.old) (W.written writer.new) result }
    ensures failed { result.stop ≡ OutStop.WriteFailed → W.failed writer.new ≡ true }
    ensures works { result.stop ≢ OutStop.WriteFailed → W.failed writer.new ≡ W.failed writer.old }
    ensures same { T.packet_bytes tap.new ≡ T.packet_bytes tap.old }
{
    let most = tap.packet_bytes();
    let before = tap.account();
    let mut report = relay_takes(tap, writer, channels, n, &mut buf[..most]);
    // Each loss was added to the tap's own account.
    report.lost = tap.account().lost - before.lost;
    report
}

// Makes the takes and writes the frames. The losses aren't counted yet.
fn relay_takes<T: Tap, W: Sink>(
    tap: &mut T,
    writer: &mut W,
    channels: &TrackChannels,
    n: u64,
    buf: &mut [u8],
) -> OutReport
    requires room { T.packet_bytes tap.old ≤ length buf.old }
    requires most { T.packet_bytes tap.old ≤ 65_535 }
    ensures takes { TakesOut T.take_gives channels.now n tap.old tap.new (W.written writer.old) (W.written writer.new) result }
    ensures failed { result.stop ≡ OutStop.WriteFailed → W.failed writer.new ≡ true }
    ensures works { result.stop ≢ OutStop.WriteFailed → W.failed writer.new ≡ W.failed writer.old }
    ensures same { T.packet_bytes tap.new ≡ T.packet_bytes tap.old }
{
    let mut sent = 0;
    let mut skipped = 0;
    for _ in 0..n {
        match tap.take(buf) {
            Taken::Packet { tag, len, .. } => match channels.channel_of(tag) {
                Some(channel) => match write_frame(writer, channel, &buf[..len]) {
                    Ok(()) => sent += 1,
                    Err(WriteCut { written }) => return report_of(
                        sent,
                        skipped,
                        written,
                        OutStop::WriteFailed,
                    ),
                },
                None => skipped += 1,
            },
            Taken::Lost(_) => {}
            Taken::Empty => return report_of(sent, skipped, 0, OutStop::Empty),
            Taken::Ended => return report_of(sent, skipped, 0, OutStop::Ended),
        }
    }
    report_of(sent, skipped, 0, OutStop::Done)
}
