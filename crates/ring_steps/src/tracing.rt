ghost use Rattle.std.specs.Prelude.{◌≡◌, ◌<◌, ◌∷◌, ◌++◌, [], ℕ, All, List, length, map, option_and_then, IfOk, OnOk};
ghost use Rattle.ring_steps.specs.Acting.{acted, acting, but_packet, event_at, event_of, is_load, only_packet};
ghost use Rattle.ring_steps.specs.Runs.{Turn};
ghost use Rattle.ring_steps.specs.Traces.{IsByOneOf, IsOneOf, Waits, made_of, step_of};

use crate::calls::{Actor, Observed};
use crate::made::Made;
use crate::trace::{Trace, TraceEvent, TraceStep};
use cursor::{Answer, Delivery};
use std::alloc::{AllocError, Global};
use std::mem;

/// Tells the steps, and where each answered call acts. It goes from the last step to the first, and
/// keeps for each seat the packet that it is answered next.
pub(crate) fn trace_of(
    alloc: Global,
    mut made: Vec<Made>,
    seats: usize,
) -> Result<Trace, AllocError>
    requires { All (IsByOneOf seats) made.items }
    ensures steps { IfOk result (λ trace. (turns : List Turn) → made.items ≡ map made_of turns
        → trace.steps.items ≡ map step_of turns) }
    ensures events { IfOk result (λ trace. (turns : List Turn) → made.items ≡ map made_of turns
        → trace.events.items ≡ map event_of (acted 0 turns)) }
{
    let mut steps = Vec::with_capacity(alloc, made.len())?;
    let mut events = Vec::new(alloc);
    let mut packets = no_packets(alloc, seats)?;
    let packets = packets.as_mut_slice();
    while let Some(last) = made.pop() {
        let step = made.len();
        let actor = last.actor;
        steps.push(TraceStep {
            actor,
            saw: last.saw,
        })?;
        let answer = answer_acting(packets, last);
        tell(&mut events, step, actor, answer)?;
    }
    steps.reverse();
    events.reverse();
    Ok(Trace { steps, events })
}

/// Adds the event of a step, if a call acts there.
fn tell(
    events: &mut Vec<TraceEvent>,
    step: usize,
    actor: Actor,
    answer: Option<Answer>,
) -> Result<(), AllocError>
    ensures { OnOk result (events.new.items ≡ events.old.items ++ event_at step actor answer) }
{
    if let Some(answer) = answer {
        events.push(TraceEvent {
            step,
            actor,
            answer,
        })?;
    }
    Ok(())
}

/// No packet for any seat.
fn no_packets(alloc: Global, seats: usize) -> Result<Vec<Option<Answer>>, AllocError>
    ensures len { IfOk result (λ packets. length packets.items ≡ seats) }
    ensures waits { IfOk result (λ packets. Waits packets.items []) }
{
    let mut packets = Vec::with_capacity(alloc, seats)?;
    for _ in 0..seats {
        packets.push(None)?;
    }
    Ok(packets)
}

/// The answer with which a call acts at this step. For a seat its next packet changes with it.
fn answer_acting(packets: &mut [Option<Answer>], made: Made) -> Option<Answer>
    requires { IsOneOf (length packets.old) made.actor }
    ensures acting { (t : Turn) (later : List Turn) → made ≡ made_of t → Waits packets.old later
        → result ≡ acting t later }
    ensures waits { (t : Turn) (later : List Turn) → made ≡ made_of t → Waits packets.old later
        → Waits packets.new (t ∷ later) }
{
    let answered = made.answer.is_some();
    let (packet, other) = by_kind(made.answer);
    let seat = match made.actor {
        Actor::P => return other,
        Actor::Seat(seat) => usize::from(seat),
    };
    if !answered && !is_load(made.saw) {
        return None;
    }
    let waiting = mem::replace(&mut packets[seat], packet);
    if answered { other } else { waiting }
}

/// Whether the head was loaded.
fn is_load(saw: Observed) -> bool
    ensures { result ≡ is_load saw }
{
    matches!(saw, Observed::Load(_))
}

/// An answer, as a packet or as another one.
fn by_kind(answer: Option<Answer>) -> (Option<Answer>, Option<Answer>)
    ensures packet { result.0 ≡ only_packet answer }
    ensures other { result.1 ≡ option_and_then but_packet answer }
{
    match answer {
        Some(Answer::Taken(Delivery::Got { number, packet })) => {
            (Some(Answer::Taken(Delivery::Got { number, packet })), None)
        }
        other => (None, other),
    }
}
