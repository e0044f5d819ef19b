//! A batch of packets from a player's seat into its connection's buffer. What gathers them can't write the buffer out, so that a
//! batch is one write.
ghost use Rattle.std.specs.Prelude.{◌≡◌, ◌≤◌, length};

use crate::limits::GATHERED;
use crate::sending::batch::Batch;
use cursor::{Lend, Tap};
use interleaved::FRAME_HEAD;
use mount_signals::TAKES;
use player::{OutReport, OutStop, relay_out, relay_out_held};
use relay_accounts::Handover;
use transport_header::TrackChannels;

/// Notes the report of one take, which began at this place of the connection's bytes. The frame of a packet is its head and the packet.
fn note<B: Batch>(handover: &mut Handover, report: &OutReport, before: u64, batch: &B) {
    handover.skip(report.skipped);
    if report.sent > 0 {
        let end = batch.place();
        handover.put(
            end,
            end.saturating_sub(before).saturating_sub(FRAME_HEAD as u64),
        );
    }
}

/// Makes up to sixteen takes, fewer if that fills one write (`GATHERED` bytes), and returns why no more came. For a writer, a
/// frame has room after what is gathered, so no write waits.
pub(crate) fn gather<T: Tap, B: Batch>(
    tap: &mut T,
    batch: &mut B,
    channels: &TrackChannels,
    buf: &mut [u8],
    handover: &mut Handover,
) -> OutStop
    requires { T.packet_bytes tap.old ≤ length buf.old }
    ensures same { T.packet_bytes tap.new ≡ T.packet_bytes tap.old }
{
    begin(batch, handover);
    for _ in 0..TAKES {
        if batch.gathered() >= GATHERED {
            break;
        }
        let before = batch.place();
        let report = relay_out(tap, batch, channels, 1, buf);
        note(handover, &report, before, batch);
        match report.stop {
            OutStop::Done => {}
            stop => return stop,
        }
    }
    OutStop::Done
}

/// Makes up to sixteen takes, whose packets are written from where they lie in the ring. A packet that finds the buffer full
/// waits there until the socket takes more.
pub(crate) fn gather_held<T: Lend, B: Batch>(
    tap: &mut T,
    batch: &mut B,
    channels: &TrackChannels,
    handover: &mut Handover,
) -> OutStop
    ensures same { T.packet_bytes tap.new ≡ T.packet_bytes tap.old }
{
    begin(batch, handover);
    for _ in 0..TAKES {
        let before = batch.place();
        let report = relay_out_held(tap, batch, channels, 1);
        note(handover, &report, before, batch);
        match report.stop {
            OutStop::Done => {}
            stop => return stop,
        }
    }
    OutStop::Done
}

/// Begins a batch. If nothing waits any more, all frames before it were taken.
fn begin<B: Batch>(batch: &B, handover: &mut Handover) {
    if batch.gathered() == 0 {
        handover.pass();
    }
}
