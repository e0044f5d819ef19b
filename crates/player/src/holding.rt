//! Packets of a tap as frames, written from where they lie.
ghost use Rattle.std.specs.Prelude.{◌≡◌, ◌≢◌, ◌≤◌, true};
ghost use Rattle.player.specs.FramesOut.{TakesOut, RelaysOut};
ghost use Rattle.player.specs.Shown.{KeepsWorking, StepsOut};

use crate::frame_writer::{FrameWriter, Outgone};
use crate::report::{OutReport, OutStop, report_of};
use cursor::{Lend, Taken};
use interleaved::Sink;
use transport_header::TrackChannels;

/// What became of one take.
pub(crate) enum Step {
    /// Its packet went out as a frame.
    Sent,
    /// Its packet's track isn't set up.
    Skipped,
    /// So many bytes of its packet's frame went out, and the sink failed.
    Cut(usize),
    /// Packets were lost.
    Lost,
    /// There is no further packet yet.
    Empty,
    /// There is no further packet, and none will come.
    Ended,
}

/// Relays as `relay_out`, with no buffer: each frame is written from where its packet lies, and nothing
/// is held when the call returns.
///
/// While a frame is written the tap's packet stays where it lies: a ring refuses the publish that would
/// take its place. Takes no memory.
pub fn relay_out_held<T: Lend, W: Sink>(
    tap: &mut T,
    writer: &mut W,
    channels: &TrackChannels,
    n: u64,
) -> OutReport
    ensures relays { RelaysOut T.take_gives channels.now n tap.old tap.new (W.written writer.old) (W.written writer.new) result }
    ensures failed { result.stop ≡ OutStop.WriteFailed → W.failed writer.new ≡ true }
    ensures works { result.stop ≢ OutStop.WriteFailed → W.failed writer.new ≡ W.failed writer.old }
    ensures same { T.packet_bytes tap.new ≡ T.packet_bytes tap.old }
{
    // A frame's length has sixteen bits (RFC 2326, 10.12), enough for each packet of a tap.
    let most = tap.packet_bytes();
    prove!(most <= 65_535);
    let before = tap.account();
    let mut report = relay_held_takes(tap, writer, channels, n);
    // Each loss was added to the tap's own account.
    report.lost = tap.account().lost - before.lost;
    report
}

// Makes the takes and writes the frames. The losses aren't counted yet.
fn relay_held_takes<T: Lend, W: Sink>(
    tap: &mut T,
    writer: &mut W,
    channels: &TrackChannels,
    n: u64,
) -> OutReport
    requires { T.packet_bytes tap.old ≤ 65_535 }
    ensures takes { TakesOut T.take_gives channels.now n tap.old tap.new (W.written writer.old) (W.written writer.new) result }
    ensures failed { result.stop ≡ OutStop.WriteFailed → W.failed writer.new ≡ true }
    ensures works { result.stop ≢ OutStop.WriteFailed → W.failed writer.new ≡ W.failed writer.old }
    ensures same { T.packet_bytes tap.new ≡ T.packet_bytes tap.old }
{
    let mut sent = 0;
    let mut skipped = 0;
    for _ in 0..n {
        match relay_one(tap, writer, channels) {
            Step::Sent => sent += 1,
            Step::Skipped => skipped += 1,
            Step::Cut(written) => return report_of(sent, skipped, written, OutStop::WriteFailed),
            Step::Lost => {}
            Step::Empty => return report_of(sent, skipped, 0, OutStop::Empty),
            Step::Ended => return report_of(sent, skipped, 0, OutStop::Ended),
        }
    }
    report_of(sent, skipped, 0, OutStop::Done)
}

// One take, whose packet goes out as a frame where its track is set up.
fn relay_one<T: Lend, W: Sink>(tap: &mut T, writer: &mut W, channels: &TrackChannels) -> Step
    requires { T.packet_bytes tap.old ≤ 65_535 }
    ensures step { StepsOut T.take_gives channels.now tap.old tap.new (W.written writer.old) (W.written writer.new) result }
    ensures working { KeepsWorking result (W.failed writer.old) (W.failed writer.new) }
    ensures same { T.packet_bytes tap.new ≡ T.packet_bytes tap.old }
{
    let mut frames = FrameWriter {
        writer,
        channels,
        outgone: Outgone::Nothing,
    };
    match tap.take_with(&mut frames) {
        Taken::Packet { .. } => match frames.outgone {
            Outgone::Whole => Step::Sent,
            Outgone::Nothing => Step::Skipped,
            Outgone::Front(written) => Step::Cut(written),
        },
        Taken::Lost(_) => Step::Lost,
        Taken::Empty => Step::Empty,
        Taken::Ended => Step::Ended,
    }
}
