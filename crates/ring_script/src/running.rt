//! The command from its input to its output.
ghost use Rattle.std.specs.Prelude.{◌≡◌, ◌⊎◌, None, IfOk, IfErr};
ghost use Rattle.ring_steps.specs.declared.fault.StepFault.TheVariants.{OutOfMemory};
ghost use Rattle.ring_script.specs.Steps.{IsTraceOf, IsRefusalOf, IsTextOf, EndsEarly, StepsSo};

use crate::ends::StepsEnd;
use crate::plan::{Plan, PlanFault};
use crate::plan_reading::read_plan;
use crate::printing::put_trace;
use crate::read_all::{ReadFault, read_all};
use crate::script::script_of;
use interleaved::{Sink, Source, write_all};
use ring_steps::{Actor, StepFault, Trace, run, run_out};
use std::alloc::Global;

/// A ring has at most so many seats.
const MOST_SEATS: u64 = 1024;

/// Runs a plan, and then what the others have left where an actor is stopped behind it.
fn run_plan(alloc: Global, plan: Plan, stopped: Option<Actor>) -> Result<Trace, StepFault>
    ensures ok { IfOk result (IsTraceOf stopped plan) }
    ensures refused { IfErr result (λ fault. (fault ≡ OutOfMemory) ⊎ IsRefusalOf stopped plan fault) }
{
    let Plan {
        config,
        calls,
        schedule,
    } = plan;
    // No script of so many seats is made.
    if config.seats > MOST_SEATS {
        return Err(StepFault::BadConfig);
    }
    let script = script_of(alloc, config.seats as usize, calls)?;
    match stopped {
        None => run(alloc, &config, &script, schedule.as_slice()),
        Some(actor) => run_out(alloc, &config, &script, schedule.as_slice(), actor),
    }
}

/// Reads an input, runs it, and makes the text of its trace.
fn traced_text<R: Source>(
    alloc: Global,
    reader: &mut R,
    stopped: Option<Actor>,
) -> Result<Vec<u8>, StepsEnd>
    ensures ok { IfOk result (λ text. IsTextOf R.incoming stopped reader.old reader.new text.items) }
    ensures early { IfErr result (EndsEarly R.incoming R.failed stopped reader.old reader.new) }
{
    let input = match read_all(alloc, reader) {
        Ok(input) => input,
        Err(ReadFault::Failed) => return Err(StepsEnd::ReadFailed),
        Err(ReadFault::OutOfMemory) => return Err(StepsEnd::OutOfMemory),
    };
    let plan = match read_plan(alloc, input.as_slice()) {
        Ok(plan) => plan,
        Err(PlanFault::BadLine(number)) => return Err(StepsEnd::BadLine(number)),
        Err(PlanFault::OutOfMemory) => return Err(StepsEnd::OutOfMemory),
    };
    let trace = match run_plan(alloc, plan, stopped) {
        Ok(trace) => trace,
        Err(StepFault::OutOfMemory) => return Err(StepsEnd::OutOfMemory),
        Err(fault) => return Err(StepsEnd::Refused(fault)),
    };
    let mut text = Vec::new(alloc);
    match put_trace(&mut text, &trace) {
        Ok(()) => Ok(text),
        Err(_) => Err(StepsEnd::OutOfMemory),
    }
}

/// Reads an input to its end, runs its script over a new ring by its schedule, and writes the text of
/// the trace.
///
/// No byte is written before the whole text is made. So after `WriteFailed` a beginning of the text
/// stands in the writer, and with another fault nothing does. The reader is left as far as it was read.
pub fn run_steps<R: Source, W: Sink>(alloc: Global, reader: &mut R, writer: &mut W) -> StepsEnd
    ensures { StepsSo R.incoming R.failed W.written W.failed None reader.old reader.new writer.old writer.new result }
{
    run_steps_out(alloc, reader, writer, None)
}

/// Does what `run_steps` does, but with an actor that stops behind the schedule: the others go on, the
/// publisher first and then the seats in order, until each of their calls is answered.
///
/// Where there is no such actor the end is `Refused` with `BadSchedule` at the schedule's length.
/// Without an actor it is `run_steps`.
pub fn run_steps_out<R: Source, W: Sink>(
    alloc: Global,
    reader: &mut R,
    writer: &mut W,
    stopped: Option<Actor>,
) -> StepsEnd
    ensures { StepsSo R.incoming R.failed W.written W.failed stopped reader.old reader.new writer.old writer.new result }
{
    match traced_text(alloc, reader, stopped) {
        Ok(text) => match write_all(writer, text.as_slice()) {
            Ok(()) => StepsEnd::Done,
            Err(_) => StepsEnd::WriteFailed,
        },
        Err(end) => end,
    }
}
