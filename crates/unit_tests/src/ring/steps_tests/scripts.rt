//! Scripts and schedules as the command `steps` writes them, and the events of their runs.
use cursor::{Answer, Delivery};
use ring_steps::{
    Actor, Bytes, Observed, PublisherCall, Script, Seat, SeatCall, SeatCalls, Trace, TraceEvent,
};
use std::alloc::{AllocError, Global};
use std::process::Abort;

/// A publish of these bytes.
pub(super) fn publish(rt: &impl Abort, alloc: Global, bytes: &[u8]) -> PublisherCall {
    PublisherCall::Publish(Bytes::from_slice(alloc, bytes).expect(rt, "memory"))
}

/// A script: each letter of `published` is a publish of this byte, and `.` is a close; each text of
/// `seats` has a seat's calls, `a` attach, `t` take and `d` detach.
pub(super) fn script(rt: &impl Abort, alloc: Global, published: &[u8], seats: &[&str]) -> Script {
    let mut publisher = Vec::new(alloc);
    for byte in published {
        let call = if *byte == b'.' {
            PublisherCall::Close
        } else {
            publish(rt, alloc, &[*byte])
        };
        publisher.push(call).expect(rt, "memory");
    }
    let mut lists = Vec::new(alloc);
    for calls in seats {
        lists
            .push(seat_calls(rt, alloc, calls.as_bytes()))
            .expect(rt, "memory");
    }
    Script {
        publisher,
        seats: lists,
    }
}

fn seat_calls(rt: &impl Abort, alloc: Global, letters: &[u8]) -> SeatCalls {
    let mut calls = Vec::new(alloc);
    for letter in letters {
        let call = match letter {
            b'a' => SeatCall::Attach { back: 0 },
            b't' => SeatCall::Take,
            _ => SeatCall::Detach,
        };
        calls.push(call).expect(rt, "memory");
    }
    SeatCalls::new(calls)
}

/// A schedule: `p` and the digits of seats.
pub(super) fn schedule(rt: &impl Abort, alloc: Global, letters: &str) -> Vec<Actor> {
    let mut actors = Vec::new(alloc);
    for letter in letters.as_bytes() {
        let actor = if *letter < b'0' || *letter > b'9' {
            Actor::P
        } else {
            Actor::Seat(u16::from(*letter - b'0'))
        };
        actors.push(actor).expect(rt, "memory");
    }
    actors
}

/// An answer as the command writes it, without the pins of a refusal.
pub(super) fn answer_told(alloc: Global, answer: &Answer) -> Result<String, AllocError> {
    match answer {
        Answer::Appended(n) => format!(in alloc; "appended {n}"),
        Answer::Refused => format!(in alloc; "refused"),
        Answer::Closed => format!(in alloc; "close"),
        Answer::Attached(n) => format!(in alloc; "attach {n}"),
        Answer::Taken(taken) => match taken {
            Delivery::Got { number, packet } => {
                let bytes = packet.bytes.as_slice();
                let byte = if bytes.is_empty() { 0 } else { bytes[0] };
                format!(in alloc; "took {number} {byte}")
            }
            Delivery::Lost(n) => format!(in alloc; "lost {n}"),
            Delivery::Empty => format!(in alloc; "empty"),
            Delivery::Ended => format!(in alloc; "ended"),
        },
        Answer::Detached(left) => {
            format!(in alloc; "detach {} {} {}", left.taken, left.lost, left.left)
        }
    }
}

/// An event as the command writes it. A refusal has the pins that its step saw.
pub(super) fn event_told(
    alloc: Global,
    trace: &Trace,
    event: &TraceEvent,
) -> Result<String, AllocError> {
    let told = answer_told(alloc, &event.answer)?;
    let told = told.as_str();
    let pins = match trace.steps.get(event.step) {
        Some(step) => pins_seen(step.saw),
        None => 0,
    };
    match &event.answer {
        Answer::Refused => format!(in alloc; "@{} {} {told} {pins}", event.step, event.actor),
        _ => format!(in alloc; "@{} {} {told}", event.step, event.actor),
    }
}

/// The pins that a begin saw.
fn pins_seen(saw: Observed) -> u64 {
    match saw {
        Observed::Begin(word) => word.pins,
        _ => 0,
    }
}
