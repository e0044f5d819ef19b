//! Whether a script's calls can be made in their order.
ghost use Rattle.std.specs.Prelude.{◌≡◌, ◌<◌, ◌≤◌, ◌↔◌, ℕ, List, length, IsTrue, MatchOption, IfErr, OnOk};
ghost use Rattle.ring_steps.specs.declared.calls.Actor.{Actor};
ghost use Rattle.ring_steps.specs.Checking.{IsFirstOutOfTurn, NoneOutOfTurn};
ghost use Rattle.ring_steps.specs.Faults.{IsRefusal};
ghost use Rattle.ring_steps.specs.Scripts.{IsAfterClose, IsFirstBad, IsGoodConfig, IsGoodScript, IsMisplaced, IsOutOfTurn, attached_by, calls_of, is_close};

use crate::calls::{Actor, PublisherCall, SeatCall};
use crate::config::Config;
use crate::fault::StepFault;
use crate::script::{Script, SeatCalls};

/// Refuses a config that no ring has, or else the first call of the script that can't be made.
pub(crate) fn check_input(config: &Config, script: &Script) -> Result<(), StepFault>
    ensures config { OnOk result (IsGoodConfig config.now (calls_of script.now)) }
    ensures script { OnOk result (IsGoodScript (calls_of script.now)) }
    ensures refused { (schedule : List Actor) → IfErr result (IsRefusal config.now (calls_of script.now) schedule) }
{
    if !is_good_config(config, script) {
        return Err(StepFault::BadConfig);
    }
    match first_bad_call(script) {
        Some((actor, call)) => Err(StepFault::BadScript { actor, call }),
        None => Ok(()),
    }
}

/// Whether a ring of this size may be made, and has as many seats as the script.
fn is_good_config(config: &Config, script: &Script) -> bool
    ensures { IsTrue result ↔ IsGoodConfig config.now (calls_of script.now) }
{
    1 <= config.keep
        && config.keep <= 4095
        && config.seats <= 1024
        && script.seats.len() as u64 == config.seats
}

/// The first call that can't be made, of the first actor that has one.
fn first_bad_call(script: &Script) -> Option<(Actor, usize)>
    requires { length (calls_of script.now).seats ≤ 1024 }
    ensures { MatchOption result
        (IsGoodScript (calls_of script.now))
        (λ bad. IsFirstBad (calls_of script.now) bad.0 bad.1) }
{
    if let Some(call) = call_after_close(script.publisher.as_slice()) {
        return Some((Actor::P, call));
    }
    match seat_out_of_turn(script.seats.as_slice()) {
        Some((seat, call)) => Some((Actor::Seat(seat), call)),
        None => None,
    }
}

/// The first of the publisher's calls that comes after a close.
fn call_after_close(calls: &[PublisherCall]) -> Option<usize>
    ensures { MatchOption result
        ((n : ℕ) → ¬ IsAfterClose calls.now n)
        (λ first. IsAfterClose calls.now first × ((n : ℕ) → n < first → ¬ IsAfterClose calls.now n)) }
{
    let mut closed = false;
    for (i, call) in calls.iter().enumerate() {
        if closed {
            return Some(i);
        }
        closed = closes(call);
    }
    None
}

/// Whether the call closes the log.
fn closes(call: &PublisherCall) -> bool
    ensures { result ≡ is_close call.now }
{
    matches!(call, PublisherCall::Close)
}

/// The first seat that has a call out of turn, with the first such call.
fn seat_out_of_turn(seats: &[SeatCalls]) -> Option<(u16, usize)>
    requires { length seats.now ≤ 1024 }
    ensures { MatchOption result
        (NoneOutOfTurn seats.now (length seats.now))
        (λ first. IsFirstOutOfTurn seats.now first.0 first.1) }
{
    for (seat, calls) in seats.iter().enumerate() {
        if let Some(call) = call_out_of_turn(calls.as_slice()) {
            return Some((seat as u16, call));
        }
    }
    None
}

/// The first of a seat's calls that is out of turn.
fn call_out_of_turn(calls: &[SeatCall]) -> Option<usize>
    ensures { MatchOption result
        ((n : ℕ) → ¬ IsOutOfTurn calls.now n)
        (λ first. IsOutOfTurn calls.now first × ((n : ℕ) → n < first → ¬ IsOutOfTurn calls.now n)) }
{
    let mut attached = false;
    for (i, call) in calls.iter().enumerate() {
        if is_misplaced(attached, *call) {
            return Some(i);
        }
        attached = attaches(attached, *call);
    }
    None
}

/// Whether a seat that is attached, or isn't, can't make this call.
fn is_misplaced(attached: bool, call: SeatCall) -> bool
    ensures { IsTrue result ↔ IsMisplaced attached call }
{
    match call {
        SeatCall::Attach { .. } => attached,
        SeatCall::Take | SeatCall::Detach => !attached,
    }
}

/// Whether a seat is attached after this call.
fn attaches(attached: bool, call: SeatCall) -> bool
    ensures { result ≡ attached_by attached call }
{
    match call {
        SeatCall::Attach { .. } => true,
        SeatCall::Take => attached,
        SeatCall::Detach => false,
    }
}
