//! The commands `steps` and `pass` over any source and sink.
ghost use Rattle.std.specs.Prelude.{◌≡◌, ◌≤◌, IfOk, OnErr, string_bytes};
ghost use Rattle.relay_main.specs.Tasks.{DoesPass, DoesSteps, IsPassed, IsSteps, PassesSo, talk_end_of as end_of};

use interleaved::{Sink, Source};
use relay_command::Passing;
use relay_pass::{Pace, PassStop, RingSize, StreamEnd, pass_over_new_ring};
use relay_talk::{Ended, TalkEnd, talk_end};
use ring_script::{run_steps_out, steps_end};
use ring_steps::Actor;
use rtsp_message::Intake;
use std::alloc::{AllocError, Global};

/// The longest packet that `pass` passes on, in bytes.
const PACKET_BYTES: usize = 16_384;

/// Each frame goes out before the next one is read.
const PACE: Pace = Pace {
    frames: 1,
    takes: 1,
};

/// Runs a ring's schedule, behind which an actor stops, if one does, and the others go on. The only error is that there is
/// no memory for the line, with the schedule run.
pub fn do_steps<R: Source + Drop, W: Sink>(
    alloc: Global,
    mut reader: R,
    writer: &mut W,
    stopped: Option<Actor>,
) -> Result<Ended, AllocError>
    ensures ok { IfOk result (λ ended. DoesSteps R.incoming R.failed W.written W.failed stopped reader writer.old writer.new ended.status (string_bytes ended.line)) }
    ensures err { OnErr result (IsSteps R.incoming R.failed W.written W.failed stopped reader writer.old writer.new) }
{
    let end = run_steps_out(alloc, &mut reader, writer, stopped);
    let (status, line) = steps_end(alloc, &end)?;
    Ok(Ended { status, line })
}

/// Passes a publisher's stream through a ring of its own. The only error is that there is no memory for the line, with the
/// stream passed on.
pub fn do_pass<R: Source + Drop, W: Sink>(
    alloc: Global,
    reader: R,
    writer: &mut W,
    passing: &Passing,
) -> Result<Ended, AllocError>
    requires keep { (1 ≤ passing.now.keep) × (passing.now.keep ≤ 4095) }
    ensures ok { IfOk result (λ ended. DoesPass R.incoming R.failed W.written W.failed passing.now reader writer.old writer.new ended.status (string_bytes ended.line)) }
    ensures err { OnErr result (IsPassed R.incoming R.failed W.written W.failed passing.now reader writer.old writer.new) }
{
    let end = pass_on(alloc, reader, writer, passing);
    let (status, line) = talk_end(alloc, &end)?;
    Ok(Ended { status, line })
}

/// Passes a stream on, and returns how that ended.
fn pass_on<R: Source + Drop, W: Sink>(
    alloc: Global,
    reader: R,
    writer: &mut W,
    passing: &Passing,
) -> TalkEnd
    requires keep { (1 ≤ passing.now.keep) × (passing.now.keep ≤ 4095) }
    ensures { PassesSo R.incoming R.failed W.written W.failed passing.now reader writer.old writer.new result }
{
    let mut intake = Intake::new(alloc, reader);
    let size = RingSize {
        keep: passing.keep,
        packet_bytes: PACKET_BYTES,
    };
    let passed = pass_over_new_ring(
        alloc,
        size,
        &mut intake,
        writer,
        &passing.from,
        &passing.to,
        PACE,
    );
    let Ok(report) = passed else {
        return TalkEnd::OutOfMemory;
    };
    talk_end_of(report.stop)
}

/// How a talk ends for the same reason as a pass.
fn talk_end_of(stop: PassStop) -> TalkEnd
    ensures { result ≡ end_of stop }
{
    match stop {
        PassStop::WriteFailed => TalkEnd::WriteFailed,
        PassStop::Stream(StreamEnd::End) => TalkEnd::Done,
        PassStop::Stream(StreamEnd::Fault(fault)) => TalkEnd::StreamFault(fault),
        PassStop::Stream(StreamEnd::ReadFailed) => TalkEnd::ReadFailed,
        PassStop::Stream(StreamEnd::OutOfMemory) => TalkEnd::OutOfMemory,
    }
}
