//! Runs in which one actor stops, and the others go on without it.
use crate::ring::steps_tests::scripts::{schedule, script};
use ring_steps::{Actor, Config, Script, Trace, run_out};
use std::alloc::Global;
use std::process::Abort;

/// A ring that keeps two packets, with one seat.
const CONFIG: Config = Config { keep: 2, seats: 1 };

/// Returns the trace of a run of this schedule, after which an actor stops.
fn run_out_told(
    rt: &impl Abort,
    alloc: Global,
    calls: &Script,
    schedule: &[Actor],
    stopped: Actor,
) -> Trace {
    match run_out(alloc, &CONFIG, calls, schedule, stopped) {
        Ok(trace) => trace,
        Err(fault) => panic!(rt; "{fault}"),
    }
}

/// Returns how many events are an actor's.
fn events_by(trace: &Trace, actor: Actor) -> usize {
    trace
        .events
        .iter()
        .filter(|event| event.actor == actor)
        .count()
}

/// Wherever the schedule ends and whichever actor stops there, all calls of the other actor are answered, and the one that
/// stopped makes no more steps.
fn stops_anywhere(rt: &impl Abort, alloc: Global, calls: &Script, actors: &[Actor]) {
    let seat_calls = calls.seats.first().expect(rt, "a seat");
    for end in 0..actors.len() + 1 {
        for (stopped, other, answered) in [
            (Actor::P, Actor::Seat(0), seat_calls.len()),
            (Actor::Seat(0), Actor::P, calls.publisher.len()),
        ] {
            let trace = run_out_told(rt, alloc, calls, &actors[..end], stopped);
            assert_eq!(rt; events_by(&trace, other), answered, "{stopped} at {end}");
            let after = trace.steps.iter().skip(end);
            assert!(rt;
                after.filter(|step| step.actor == stopped).count() == 0,
                "{stopped} at {end}"
            );
        }
    }
}

#[test]
fn who_stops_holds_nobody_up(rt: HostRuntime) {
    let alloc = rt.alloc();
    let lost = script(&rt, alloc, b"ABCD", &["att"]);
    let actors = schedule(&rt, alloc, "0pppppppppp0pppppp00000000");
    stops_anywhere(&rt, alloc, &lost, actors.as_slice());
    let pinned = script(&rt, alloc, b"ABCDD", &["at"]);
    let actors = schedule(&rt, alloc, "0pppppppppp00pppppp000ppppp");
    stops_anywhere(&rt, alloc, &pinned, actors.as_slice());
}
