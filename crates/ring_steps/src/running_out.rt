//! Runs in which one actor stops, and the others go on without it.
ghost use Rattle.std.specs.Prelude.{◌↔◌, IfOk, IfErr, OnOk, IsTrue};
ghost use Rattle.ring_steps.specs.RunningOut.{IsOutRefusal, RunsOut};
ghost use Rattle.ring_steps.specs.Scripts.{IsGoodConfig, IsGoodScript, calls_of};
ghost use Rattle.ring_steps.specs.Traces.{IsOneOf};

use crate::calls::Actor;
use crate::checking::check_input;
use crate::config::Config;
use crate::fault::StepFault;
use crate::making::Making;
use crate::script::Script;
use crate::trace::Trace;
use crate::tracing::trace_of;
use std::alloc::Global;

/// Runs a script as `run` does, and then goes on without the stopped actor: the publisher makes steps until it has no call left,
/// and then each seat in its order. So nobody waits for an actor that stops, wherever it stands: each call of every other actor
/// is answered.
///
/// The trace is that of `run` with the longer schedule, so all that holds of each run (`run_laws`) holds of it.
///
/// A refusal is that of `run`, or `BadSchedule` at the schedule's length where the stopped actor doesn't exist.
pub fn run_out(
    alloc: Global,
    config: &Config,
    script: &Script,
    schedule: &[Actor],
    stopped: Actor,
) -> Result<Trace, StepFault>
    ensures refused { IfErr result (IsOutRefusal config.now (calls_of script.now) schedule.now stopped) }
    ensures config { OnOk result (IsGoodConfig config.now (calls_of script.now)) }
    ensures script { OnOk result (IsGoodScript (calls_of script.now)) }
    ensures stopped { OnOk result (IsOneOf config.now.seats stopped) }
    ensures trace { IfOk result (RunsOut config.now (calls_of script.now) schedule.now stopped) }
{
    check_input(config, script)?;
    let mut making = Making::along(alloc, config, script, schedule)?;
    if !has_actor(config, stopped) {
        return Err(StepFault::BadSchedule(schedule.len()));
    }
    making.finish_others(script, stopped)?;
    Ok(trace_of(alloc, making.made, config.seats as usize)?)
}

/// Whether a ring of this size has the actor.
fn has_actor(config: &Config, actor: Actor) -> bool
    ensures { IsTrue result ↔ IsOneOf config.now.seats actor }
{
    match actor {
        Actor::P => true,
        Actor::Seat(seat) => u64::from(seat) < config.seats,
    }
}
