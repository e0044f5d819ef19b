//! The items of a `go` line.
ghost use Rattle.std.specs.Prelude.{◌≡◌, ◌≤◌, ◌++◌, replicate, Some, None, IfOk, IfSome, IfNone, MatchOption, OnOk};
ghost use Rattle.ring_steps.specs.declared.calls.Actor as actors;
ghost use Rattle.ring_script.specs.Grammar.{IsActor};
ghost use Rattle.ring_script.specs.LineForms.{item_of, schedule_of, actor_of, times_of};
ghost use Rattle.std.specs.Option.{option_copied};

use crate::parts::number;
use base_syntax::{Items, cut};
use ring_steps::Actor;
use std::alloc::{AllocError, Global};

/// At most so many steps of one item.
const MOST_TIMES: u64 = 100_000;

/// At most so many steps of one schedule.
const MOST_STEPS: usize = 1_000_000;

/// The actor that a name names.
fn actor(name: &[u8]) -> Option<Actor>
    ensures { result ≡ actor_of name.now }
{
    if name == b"p".as_slice() {
        return Some(Actor::P);
    }
    // A seat past these numbers isn't there, and neither is the last of them.
    number(name).map(|seat| Actor::Seat(seat.min(65535) as u16))
}

/// The actor that a text names: `p`, or a seat's number of one to nine decimal digits. `None` for any other text. A number
/// past 65,535 names that seat, which no ring has.
pub fn read_actor(name: &[u8]) -> Option<Actor>
    ensures { MatchOption result ((actor : actors.Actor) → ¬ IsActor name.now actor) (IsActor name.now) }
{
    actor(name)
}

/// How often an item's actor steps.
fn times(behind_star: Option<&[u8]>) -> Option<u64>
    ensures value { result ≡ times_of (option_copied behind_star.entry) }
    ensures most { IfSome result (λ n. n ≤ 100000) }
{
    let Some(text) = behind_star else {
        return Some(1);
    };
    let times = number(text)?;
    if times < 1 || times > MOST_TIMES {
        return None;
    }
    Some(times)
}

/// The actor of an item, and how often it steps.
fn item(word: &[u8]) -> Option<(Actor, usize)>
    ensures read { IfSome result (λ r. item_of word.now ≡ Some (replicate r.1 r.0)) }
    ensures most { IfSome result (λ r. r.1 ≤ 100000) }
    ensures bad { IfNone result (item_of word.now ≡ None) }
{
    let (name, behind_star) = cut(word, b'*');
    let actor = actor(name)?;
    let times = times(behind_star)?;
    Some((actor, times as usize))
}

/// Adds so many steps of an actor.
fn add_steps(schedule: &mut Items<Actor>, actor: Actor, times: usize) -> Result<(), AllocError>
    ensures { OnOk result (schedule.new ≡ schedule.old ++ replicate times actor) }
{
    for _ in 0..times {
        schedule.push(actor)?;
    }
    Ok(())
}

/// The schedule of one item or more, with one space between two.
pub(crate) fn schedule(alloc: Global, text: &[u8]) -> Result<Option<Items<Actor>>, AllocError>
    ensures { IfOk result (λ r. r ≡ schedule_of text.now) }
{
    let mut schedule = Items::empty(alloc);
    let mut rest = Some(text);
    while let Some(text) = rest {
        let (word, after) = cut(text, b' ');
        let Some((actor, times)) = item(word) else {
            return Ok(None);
        };
        if schedule.len() + times > MOST_STEPS {
            return Ok(None);
        }
        add_steps(&mut schedule, actor, times)?;
        rest = after;
    }
    Ok(Some(schedule))
}
