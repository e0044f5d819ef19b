//! Every interleaving of small scripts: the plain log answers the same in the order of acting steps.
use crate::ring::steps_tests::scripts::{answer_told, script};
use cursor::{Answer, Call, Packet, PlainLog};
use ring_steps::{Actor, Bytes, Config, Observed, Script, Seat, Trace, TraceEvent, run};
use std::alloc::Global;
use std::process::Abort;

/// The call that an event answers. A publish is of this byte.
fn call_of(rt: &impl Abort, alloc: Global, event: &TraceEvent, byte: u8) -> Call {
    let seat = match event.actor {
        Actor::Seat(seat) => seat,
        Actor::P => 0,
    };
    match &event.answer {
        Answer::Appended(_) => {
            let bytes = Vec::from_slice(alloc, &[byte]).expect(rt, "memory");
            Call::Publish(Packet {
                tag: 0,
                bytes: Bytes::new(bytes),
            })
        }
        Answer::Refused | Answer::Closed => Call::Close,
        Answer::Attached(_) => Call::Attach { seat, back: 0 },
        Answer::Taken(_) => Call::Take(seat),
        Answer::Detached(_) => Call::Detach(seat),
    }
}

/// Makes the calls of these events on a plain log, and compares the answers. A refused publish is left
/// out, because it changes nothing.
fn compare(rt: &impl Abort, alloc: Global, config: &Config, published: &[u8], trace: &Trace) {
    let mut calls = Vec::new(alloc);
    let mut wanted = Vec::new(alloc);
    let mut publishes = published.iter();
    for event in &trace.events {
        let byte = match event.actor {
            Actor::P => publishes.next(),
            Actor::Seat(_) => None,
        };
        if !matches!(event.answer, Answer::Refused) {
            let byte = byte.copied().unwrap_or(0);
            calls
                .push(call_of(rt, alloc, event, byte))
                .expect(rt, "memory");
            wanted
                .push(answer_told(alloc, &event.answer).expect(rt, "memory"))
                .expect(rt, "memory");
        }
    }
    let mut log = PlainLog::new(alloc, config.keep, 2, 16).expect(rt, "memory");
    let replies = cursor::run(alloc, &mut log, calls.as_slice()).expect(rt, "memory");
    assert_eq!(rt; replies.len(), wanted.len());
    for (i, reply) in replies.iter().enumerate() {
        match reply {
            Some(answer) => {
                let told = answer_told(alloc, answer).expect(rt, "memory");
                assert!(rt; i < wanted.len(), "a reply too many");
                assert_eq!(rt; told.as_str(), wanted[i].as_str());
            }
            None => assert!(rt; false, "the plain log doesn't answer"),
        }
    }
}

/// Returns whether an actor has a call that this run didn't answer.
fn has_call(script: &Script, trace: &Trace, actor: Actor) -> bool {
    let calls = match actor {
        Actor::P => script.publisher.len(),
        Actor::Seat(seat) => match script.seats.get(usize::from(seat)) {
            Some(calls) => calls.as_slice().len(),
            None => 0,
        },
    };
    let mut answered = 0_u64;
    for event in &trace.events {
        if event.actor == actor {
            answered = answered.saturating_add(1);
        }
    }
    answered < calls as u64
}

/// How many of the runs that were tried answer every call; and how many of those have a refused publish,
/// and a pin that failed.
#[derive(Clone, Copy, Debug, PartialEq, Eq)]
struct Tried {
    whole: u64,
    refused: u64,
    failed: u64,
}

impl Tried {
    fn with(self, more: Tried) -> Tried {
        Tried {
            whole: self.whole.saturating_add(more.whole),
            refused: self.refused.saturating_add(more.refused),
            failed: self.failed.saturating_add(more.failed),
        }
    }
}

/// Whether one of the events is a refused publish.
fn refuses(trace: &Trace) -> bool {
    for event in &trace.events {
        if matches!(event.answer, Answer::Refused) {
            return true;
        }
    }
    false
}

/// Whether a seat took back its pin without a read.
fn fails_a_pin(trace: &Trace) -> bool {
    let mut pinned = false;
    for step in &trace.steps {
        if step.actor != Actor::P {
            if pinned && matches!(step.saw, Observed::Unpin(_)) {
                return true;
            }
            pinned = matches!(step.saw, Observed::Pin(_));
        }
    }
    false
}

/// One run, which may be whole.
fn one_run(trace: &Trace, whole: bool) -> Tried {
    Tried {
        whole: u64::from(whole),
        refused: u64::from(whole && refuses(trace)),
        failed: u64::from(whole && fails_a_pin(trace)),
    }
}

/// Tries each order in which the actors may make this number of steps more. None of these runs is refused.
fn explore(
    rt: &impl Abort,
    alloc: Global,
    script: &Script,
    published: &[u8],
    so_far: &[Actor],
    left: u8,
) -> Tried {
    let config = Config {
        keep: 1,
        seats: script.seats.len() as u64,
    };
    let trace = match run(alloc, &config, script, so_far) {
        Ok(trace) => trace,
        Err(fault) => panic!(rt; "{fault}"),
    };
    compare(rt, alloc, &config, published, &trace);
    let p = has_call(script, &trace, Actor::P);
    let first = has_call(script, &trace, Actor::Seat(0));
    let second = has_call(script, &trace, Actor::Seat(1));
    let mut all = one_run(&trace, !p && !first && !second);
    if left == 0 {
        return all;
    }
    for (actor, may) in [
        (Actor::P, p),
        (Actor::Seat(0), first),
        (Actor::Seat(1), second),
    ] {
        if may {
            let mut longer = Vec::from_slice(alloc, so_far).expect(rt, "memory");
            longer.push(actor).expect(rt, "memory");
            all = all.with(explore(rt, alloc, script, published, longer.as_slice(), left - 1));
        }
    }
    all
}

/// One seat that is passed by the publisher.
#[test]
fn publishes_and_a_take(rt: HostRuntime) {
    let alloc = rt.alloc();
    let calls = script(&rt, alloc, b"AB", &["at"]);
    let all = explore(&rt, alloc, &calls, b"AB", &[], 16);
    assert_eq!(&rt; (all.whole, all.refused, all.failed), (1296, 0, 0));
}

/// A seat that the publisher overtakes and meets: a pin of its makes a publish fail, and a slot that is
/// being written makes its pin fail.
#[test]
fn contention(rt: HostRuntime) {
    let alloc = rt.alloc();
    let calls = script(&rt, alloc, b"ABC", &["at"]);
    let all = explore(&rt, alloc, &calls, b"ABC", &[], 21);
    assert_eq!(&rt; (all.whole, all.refused, all.failed), (4471, 1000, 875));
}

/// An end, and a seat that comes back.
#[test]
fn close_and_return(rt: HostRuntime) {
    let alloc = rt.alloc();
    let calls = script(&rt, alloc, b"A.", &["atdat"]);
    let all = explore(&rt, alloc, &calls, b"A", &[], 20);
    assert_eq!(&rt; (all.whole, all.refused, all.failed), (762, 0, 0));
}

/// Two seats, one of which stays out.
#[test]
fn two_seats(rt: HostRuntime) {
    let alloc = rt.alloc();
    let calls = script(&rt, alloc, b"A", &["at", "ad"]);
    let all = explore(&rt, alloc, &calls, b"A", &[], 14);
    assert_eq!(&rt; (all.whole, all.refused, all.failed), (966, 0, 0));
}
