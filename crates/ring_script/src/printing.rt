//! The text of a trace.
ghost use Rattle.std.specs.Prelude.{◌≡◌, ◌++◌, decimal, slice_get, OnOk};
ghost use Rattle.ring_steps.specs.Texts.{actor_text};
ghost use Rattle.ring_script.specs.TraceText.{bit_text, word_text, saw_text, step_line, step_lines, pins_in, pins_of, delivery_text, answer_text, event_line, event_lines, trace_text};
ghost use Rattle.hex.specs.Hex.{encode_lower};

use cursor::{Answer, Delivery};
use itoa::Buffer;
use ring_steps::{Actor, Observed, Trace, TraceEvent, TraceStep, Word};
use std::alloc::AllocError;

fn put_number(out: &mut Vec<u8>, number: u64) -> Result<(), AllocError>
    ensures { OnOk result (out.new.items ≡ out.old.items ++ decimal number) }
{
    let mut digits = Buffer::new();
    out.extend_from_slice(digits.format(number).as_bytes())
}

/// Puts bytes as lower-case hexadecimal digits.
fn put_hex(out: &mut Vec<u8>, bytes: &[u8]) -> Result<(), AllocError>
    ensures { OnOk result (out.new.items ≡ out.old.items ++ encode_lower bytes.now) }
{
    let text = hex::encode(*out.allocator(), bytes)?;
    out.extend_from_slice(text.as_bytes())
}

fn put_actor(out: &mut Vec<u8>, actor: Actor) -> Result<(), AllocError>
    ensures { OnOk result (out.new.items ≡ out.old.items ++ actor_text actor) }
{
    match actor {
        Actor::P => out.extend_from_slice(b"p"),
        Actor::Seat(seat) => put_number(out, u64::from(seat)),
    }
}

fn put_bit(out: &mut Vec<u8>, bit: bool) -> Result<(), AllocError>
    ensures { OnOk result (out.new.items ≡ out.old.items ++ bit_text bit) }
{
    if bit {
        out.extend_from_slice(b"1")
    } else {
        out.extend_from_slice(b"0")
    }
}

fn put_word(out: &mut Vec<u8>, word: Word) -> Result<(), AllocError>
    ensures { OnOk result (out.new.items ≡ out.old.items ++ word_text word) }
{
    put_number(out, word.pins)?;
    out.extend_from_slice(b" ")?;
    put_bit(out, word.writing)?;
    out.extend_from_slice(b" ")?;
    put_number(out, word.number)
}

/// Puts what a step on a slot's word did, by its name.
fn put_named_word(out: &mut Vec<u8>, name: &[u8], word: Word) -> Result<(), AllocError>
    ensures { OnOk result (out.new.items ≡ out.old.items ++ (name.now ++ word_text word)) }
{
    out.extend_from_slice(name)?;
    put_word(out, word)
}

fn put_named_number(out: &mut Vec<u8>, name: &[u8], number: u64) -> Result<(), AllocError>
    ensures { OnOk result (out.new.items ≡ out.old.items ++ (name.now ++ decimal number)) }
{
    out.extend_from_slice(name)?;
    put_number(out, number)
}

fn put_saw(out: &mut Vec<u8>, saw: Observed) -> Result<(), AllocError>
    ensures { OnOk result (out.new.items ≡ out.old.items ++ saw_text saw) }
{
    match saw {
        Observed::Load(head) => {
            put_named_number(out, b"load ", head.length)?;
            out.extend_from_slice(b" ")?;
            put_bit(out, head.closed)
        }
        Observed::Pin(word) => put_named_word(out, b"pin ", word),
        Observed::Unpin(word) => put_named_word(out, b"unpin ", word),
        Observed::Begin(word) => put_named_word(out, b"begin ", word),
        Observed::Finish(word) => put_named_word(out, b"finish ", word),
        Observed::Length(len) => put_named_number(out, b"len ", len as u64),
        Observed::Byte(byte) => {
            out.extend_from_slice(b"byte ")?;
            put_hex(out, &[byte])
        }
        Observed::Append(length) => put_named_number(out, b"append ", length),
        Observed::Close => out.extend_from_slice(b"close"),
    }
}

/// Puts the line of the step with this index.
#[tactic(auto, unfolding(crate::specs::TraceText::step_line))]
fn put_step(out: &mut Vec<u8>, index: usize, step: &TraceStep) -> Result<(), AllocError>
    ensures { OnOk result (out.new.items ≡ out.old.items ++ step_line index step.now) }
{
    put_number(out, index as u64)?;
    out.extend_from_slice(b" ")?;
    put_actor(out, step.actor)?;
    out.extend_from_slice(b" ")?;
    put_saw(out, step.saw)?;
    out.extend_from_slice(b"\n")
}

fn put_steps(out: &mut Vec<u8>, steps: &[TraceStep]) -> Result<(), AllocError>
    ensures { OnOk result (out.new.items ≡ out.old.items ++ step_lines 0 steps.now) }
{
    for (index, step) in steps.iter().enumerate() {
        put_step(out, index, step)?;
    }
    Ok(())
}

/// The pins of the word that the step at this place found, if a publish began there.
fn pins_at(steps: &[TraceStep], place: usize) -> u64
    ensures { result ≡ pins_of (slice_get steps.now place) }
{
    match steps.get(place) {
        Some(step) => match step.saw {
            Observed::Begin(word) => word.pins,
            _ => 0,
        },
        None => 0,
    }
}

fn put_delivery(out: &mut Vec<u8>, delivery: &Delivery) -> Result<(), AllocError>
    ensures { OnOk result (out.new.items ≡ out.old.items ++ delivery_text delivery.now) }
{
    match delivery {
        Delivery::Got { number, packet } => {
            put_named_number(out, b"took ", *number)?;
            out.extend_from_slice(b" ")?;
            put_hex(out, packet.bytes.as_slice())
        }
        Delivery::Lost(count) => put_named_number(out, b"lost ", *count),
        Delivery::Empty => out.extend_from_slice(b"empty"),
        Delivery::Ended => out.extend_from_slice(b"ended"),
    }
}

fn put_answer(out: &mut Vec<u8>, pins: u64, answer: &Answer) -> Result<(), AllocError>
    ensures { OnOk result (out.new.items ≡ out.old.items ++ answer_text pins answer.now) }
{
    match answer {
        Answer::Appended(number) => put_named_number(out, b"appended ", *number),
        Answer::Refused => put_named_number(out, b"refused ", pins),
        Answer::Closed => out.extend_from_slice(b"close"),
        Answer::Attached(cursor) => put_named_number(out, b"attach ", *cursor),
        Answer::Taken(delivery) => put_delivery(out, delivery),
        Answer::Detached(left) => {
            put_named_number(out, b"detach ", left.taken)?;
            put_named_number(out, b" ", left.lost)?;
            put_named_number(out, b" ", left.left)
        }
    }
}

/// Puts the line of an event among these steps.
#[tactic(auto, unfolding(crate::specs::TraceText::event_line))]
fn put_event(out: &mut Vec<u8>, steps: &[TraceStep], event: &TraceEvent) -> Result<(), AllocError>
    ensures { OnOk result (out.new.items ≡ out.old.items ++ event_line steps.now event.now) }
{
    put_named_number(out, b"@", event.step as u64)?;
    out.extend_from_slice(b" ")?;
    put_actor(out, event.actor)?;
    out.extend_from_slice(b" ")?;
    put_answer(out, pins_at(steps, event.step), &event.answer)?;
    out.extend_from_slice(b"\n")
}

fn put_events(
    out: &mut Vec<u8>,
    steps: &[TraceStep],
    events: &[TraceEvent],
) -> Result<(), AllocError>
    ensures { OnOk result (out.new.items ≡ out.old.items ++ event_lines steps.now events.now) }
{
    for event in events {
        put_event(out, steps, event)?;
    }
    Ok(())
}

/// Appends the text of a trace: one line a step, then one line an event. The only error is out of
/// memory, and a part of the text may stand in `out` then.
pub(crate) fn put_trace(out: &mut Vec<u8>, trace: &Trace) -> Result<(), AllocError>
    ensures { OnOk result (out.new.items ≡ out.old.items ++ trace_text trace.now) }
{
    put_steps(out, trace.steps.as_slice())?;
    put_events(out, trace.steps.as_slice(), trace.events.as_slice())
}
