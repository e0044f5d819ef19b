//! The next frame of a stream.
ghost use Rattle.std.specs.Prelude.{◌+◌, ◌≤◌, length};
ghost use Rattle.rtsp_message.specs.Intakes.{weight};
ghost use Rattle.relay_pass.specs.Came.{Comes, frames_of_incoming};

use crate::report::StreamEnd;
use interleaved::{Frame, Source};
use rtsp_message::{Intake, Next, Unit};

/// What came of a stream.
pub(crate) enum Incoming {
    /// Its next frame.
    Frame(Frame),
    /// No more frames, for this reason.
    Ended(StreamEnd),
}

/// The next frame. Messages before it are skipped.
pub(crate) fn next_frame<S: Source + Drop>(intake: &mut Intake<S>) -> Incoming
    ensures comes { Comes S.incoming S.failed intake.old intake.new result }
    ensures ends { weight S.bound intake.new + length (frames_of_incoming result) ≤ weight S.bound intake.old }
{
    loop {
        match intake.next() {
            Next::Unit(Unit::Frame(frame)) => return Incoming::Frame(frame),
            Next::Unit(Unit::Message(_)) => {}
            Next::End => return Incoming::Ended(StreamEnd::End),
            Next::Fault(fault) => return Incoming::Ended(StreamEnd::Fault(fault)),
            Next::ReadFailed => return Incoming::Ended(StreamEnd::ReadFailed),
            Next::OutOfMemory => return Incoming::Ended(StreamEnd::OutOfMemory),
        }
    }
}
