//! A pass over a ring of its own.
ghost use Rattle.std.specs.Prelude.{◌≡◌, ◌≢◌, ◌+◌, ◌*◌, ◌<◌, ◌≤◌, true, IfOk, OnErr};
ghost use Rattle.relay_pass.specs.Counts.{counted_takes};
ghost use Rattle.relay_pass.specs.Passes.{PassesNew, cut_packets};

use crate::known::knows_published;
use crate::pace::{Pace, RingSize};
use crate::passing::pass;
use crate::report::{PassReport, PassStop};
use interleaved::{Sink, Source};
use rtsp_message::Intake;
use std::alloc::{AllocError, Global};
use transport_header::TrackChannels;

/// As `pass`, over a new ring of this size with one seat, which begins at the log's start. If there is no memory for the
/// ring, nothing is read or written.
pub fn pass_over_new_ring<S: Source + Drop, W: Sink>(
    alloc: Global,
    size: RingSize,
    intake: &mut Intake<S>,
    writer: &mut W,
    from: &TrackChannels,
    to: &TrackChannels,
    pace: Pace,
) -> Result<PassReport, AllocError>
    requires keep { (1 ≤ size.keep) × (size.keep ≤ 4095) }
    requires packet_bytes { (1 ≤ size.packet_bytes) × (size.packet_bytes ≤ 65535) }
    requires pace { (1 ≤ pace.frames) × (1 ≤ pace.takes) }
    ensures passes { IfOk result (λ report. PassesNew S.incoming S.failed size.keep size.packet_bytes from.now to.now intake.old intake.new (W.written writer.old) (W.written writer.new) report) }
    ensures kept_up { IfOk result (λ report. pace.frames ≤ size.keep → pace.frames ≤ pace.takes → report.went.lost ≡ 0) }
    ensures in_step { IfOk result (λ report. pace.frames ≤ pace.takes → report.came.published < counted_takes report.went + cut_packets report.stop + pace.frames) }
    ensures in_turns { IfOk result (λ report. pace.takes ≤ pace.frames → pace.takes * report.came.published ≤ pace.frames * (counted_takes report.went + cut_packets report.stop + pace.takes)) }
    ensures failed { IfOk result (λ report. report.stop ≡ PassStop.WriteFailed → W.failed writer.new ≡ true) }
    ensures works { IfOk result (λ report. report.stop ≢ PassStop.WriteFailed → W.failed writer.new ≡ W.failed writer.old) }
    ensures refused { OnErr result ((intake.new ≡ intake.old) × (writer.new ≡ writer.old)) }
{
    let (mut publisher, mut seats) = packet_ring::new(alloc, size.keep, 1, size.packet_bytes)?;
    let mut seat = seats.pop().unwrap().attach();
    knows_published(&mut publisher, &mut seat);
    Ok(pass(intake, &mut publisher, &mut seat, writer, from, to, pace))
}
