//! How the command ends.
ghost use Rattle.std.specs.Prelude.{◌≡◌, IfOk, string_bytes};
ghost use Rattle.ring_script.specs.Steps.{steps_status, steps_end_line};

use ring_steps::StepFault;
use std::alloc::{AllocError, Global};

/// How a run of the command `steps` ended.
#[derive(Clone, Copy, Debug, PartialEq, Eq)]
pub enum StepsEnd {
    /// The text of the trace was written.
    Done,
    /// This line of the input, from 1, is the first bad one.
    BadLine(usize),
    /// The run was refused.
    Refused(StepFault),
    ReadFailed,
    /// A beginning of the text was written.
    WriteFailed,
    OutOfMemory,
}

/// The exit status of the command, and the line that stands on standard error after it: empty at
/// status 0. The only error is out of memory.
pub fn steps_end(alloc: Global, end: &StepsEnd) -> Result<(u8, String), AllocError>
    ensures status { IfOk result (λ r. r.0 ≡ steps_status end.now) }
    ensures line { IfOk result (λ r. string_bytes r.1 ≡ steps_end_line end.now) }
{
    match end {
        StepsEnd::Done => Ok((0, String::new(alloc))),
        StepsEnd::BadLine(number) => Ok((1, format!(in alloc; "relay: bad line {number}")?)),
        StepsEnd::Refused(fault) => Ok((1, format!(in alloc; "relay: {fault}")?)),
        StepsEnd::ReadFailed => Ok((1, String::from_str(alloc, "relay: read failed")?)),
        StepsEnd::WriteFailed => Ok((1, String::from_str(alloc, "relay: write failed")?)),
        StepsEnd::OutOfMemory => Ok((1, String::from_str(alloc, "relay: out of memory")?)),
    }
}
