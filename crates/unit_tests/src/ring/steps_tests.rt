//! The ring's core: every order of steps of small scripts, the largest ring, and seats that a script lacks.
use ring_steps::{Actor, Config, Seat, StepFault, run};
use scripts::{event_told, publish, schedule, script};

mod orders;
mod scripts;
mod stopped;

/// The largest ring filled and wrapped by five packets: five are lost, and the oldest that is kept is
/// taken.
#[test]
fn the_largest_ring_is_wrapped(rt: HostRuntime) {
    let alloc = rt.alloc();
    let mut calls = script(&rt, alloc, b"", &["att"]);
    let mut actors = schedule(&rt, alloc, "0");
    for n in 0..4100_u64 {
        let byte = (n % 251) as u8;
        calls
            .publisher
            .push(publish(&rt, alloc, &[byte]))
            .expect(&rt, "memory");
        for _ in 0..5 {
            actors.push(Actor::P).expect(&rt, "memory");
        }
    }
    for _ in 0..6 {
        actors.push(Actor::Seat(0)).expect(&rt, "memory");
    }
    let config = Config {
        keep: 4095,
        seats: 1,
    };
    let trace = match run(alloc, &config, &calls, actors.as_slice()) {
        Ok(trace) => trace,
        Err(fault) => panic!(&rt; "{fault}"),
    };
    assert_eq!(&rt; trace.events.len(), 4103);
    let lost = event_told(alloc, &trace, &trace.events[4101]).expect(&rt, "memory");
    assert_eq!(&rt; lost.as_str(), "@20501 0 lost 5");
    let took = event_told(alloc, &trace, &trace.events[4102]).expect(&rt, "memory");
    assert_eq!(&rt; took.as_str(), "@20502 0 took 5 5");
}

/// A script has calls for exactly the ring's seats, even if there are none.
#[test]
fn a_script_has_each_seat(rt: HostRuntime) {
    let alloc = rt.alloc();
    let calls = script(&rt, alloc, b"A", &["a"]);
    let actors = schedule(&rt, alloc, "0");
    for seats in [0, 2] {
        let refused = run(alloc, &Config { keep: 1, seats }, &calls, actors.as_slice()).err();
        assert!(&rt; refused == Some(StepFault::BadConfig), "{seats}");
    }
}

/// The ring has the seats of the script, but that is one more than a ring may have.
#[test]
fn a_ring_has_no_more_seats_than_may_be(rt: HostRuntime) {
    let alloc = rt.alloc();
    let calls = script(&rt, alloc, b"A", &[""; 1025]);
    let actors = schedule(&rt, alloc, "p");
    let config = Config {
        keep: 1,
        seats: 1025,
    };
    let refused = run(alloc, &config, &calls, actors.as_slice()).err();
    assert!(&rt; refused == Some(StepFault::BadConfig));
}
