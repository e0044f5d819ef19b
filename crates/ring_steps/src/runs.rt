//! Runs of a script over a whole schedule.
ghost use Rattle.std.specs.Prelude.{IfOk, IfErr, OnOk, map};
ghost use Rattle.cursor.specs.Player.{PlayersReceive};
ghost use Rattle.ring_steps.specs.Acting.{history_of};
ghost use Rattle.ring_steps.specs.Answers.{packet_of};
ghost use Rattle.ring_steps.specs.Faults.{IsRefusal};
ghost use Rattle.ring_steps.specs.Scripts.{IsGoodConfig, IsGoodScript, calls_of};
ghost use Rattle.ring_steps.specs.Slots.{Invariant};
ghost use Rattle.ring_steps.specs.Traces.{ActsOnce, EachState, EachTurn, IsLegal, IsTrace, MeetsPins, StepsAreFew, TellsAccounts};
ghost use Rattle.ring_steps.specs.Within.{ActsWithin};

use crate::calls::Actor;
use crate::checking::check_input;
use crate::config::Config;
use crate::fault::StepFault;
use crate::making::Making;
use crate::script::Script;
use crate::trace::Trace;
use crate::tracing::trace_of;
use std::alloc::Global;

/// Runs a script over a ring that nobody used yet. Step i of the schedule is made by its i-th actor,
/// within the first of its calls that isn't answered yet.
///
/// Every state on the way has the invariant, the events are a legal history of the broadcast log in the
/// order of their acting steps, and each detachment tells its account. So each player receives the log
/// from its attachment, in order, less exactly its losses, and nothing while it is detached. Each answered
/// call has one event with its answer, at one of its own steps, and a call makes few atomic steps. A
/// refused publish met pins: at least one, and no more than there are seats.
///
/// A refusal tells the first of its reasons: the config, then the script, then the schedule, or that
/// memory was refused on the way.
pub fn run(
    alloc: Global,
    config: &Config,
    script: &Script,
    schedule: &[Actor],
) -> Result<Trace, StepFault>
    ensures refused { IfErr result (IsRefusal config.now (calls_of script.now) schedule.now) }
    ensures config { OnOk result (IsGoodConfig config.now (calls_of script.now)) }
    ensures script { OnOk result (IsGoodScript (calls_of script.now)) }
    ensures trace { IfOk result (λ trace.
        IsTrace config.now (calls_of script.now) schedule.now trace) }
    ensures states { IfOk result (λ trace.
        (told : IsTrace config.now (calls_of script.now) schedule.now trace)
        → EachState config.now (calls_of script.now) told.turns Invariant) }
    ensures history { IfOk result (λ trace.
        (told : IsTrace config.now (calls_of script.now) schedule.now trace)
        → IsLegal config.now.keep config.now.seats (history_of told.turns)) }
    ensures accounts { IfOk result (λ trace.
        (told : IsTrace config.now (calls_of script.now) schedule.now trace)
        → TellsAccounts (history_of told.turns)) }
    ensures players { IfOk result (λ trace.
        (told : IsTrace config.now (calls_of script.now) schedule.now trace)
        → PlayersReceive config.now.keep (history_of told.turns) (map packet_of told.end.ring.log)) }
    ensures events_once { IfOk result (λ trace.
        (told : IsTrace config.now (calls_of script.now) schedule.now trace)
        → ActsOnce (calls_of script.now) told.turns told.end) }
    ensures events_within { IfOk result (λ trace.
        (told : IsTrace config.now (calls_of script.now) schedule.now trace)
        → ActsWithin (calls_of script.now) told.turns) }
    ensures few_steps { IfOk result (λ trace.
        (told : IsTrace config.now (calls_of script.now) schedule.now trace)
        → StepsAreFew told.turns) }
    ensures refusals { IfOk result (λ trace.
        (told : IsTrace config.now (calls_of script.now) schedule.now trace)
        → EachTurn config.now (calls_of script.now) told.turns MeetsPins) }
{
    check_input(config, script)?;
    let making = Making::along(alloc, config, script, schedule)?;
    Ok(trace_of(alloc, making.made, config.seats as usize)?)
}
