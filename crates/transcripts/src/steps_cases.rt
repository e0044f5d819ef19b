//! Cases of a ring's script and schedule.

use case_texts::{Arguments, Fault, Told, short_of};
use interleaved::{ListSink, ListSource};
use ring_script::{StepsEnd, run_steps, run_steps_out, steps_end};
use ring_steps::Actor;
use std::alloc::AllocError;

/// How many bytes of an input come at a time.
const PIECE: usize = 7;

/// The most bytes of a trace.
const MOST_WRITTEN: usize = 1 << 20;

/// How an input is run.
#[derive(Clone, Copy, Drop)]
enum Way {
    /// To the end of its schedule.
    Whole,
    /// And then on, without the actor that stops there, if one does.
    Out(Option<Actor>),
}

/// How the next input is run.
#[derive(Drop)]
pub struct StepsCase {
    way: Way,
}

impl StepsCase {
    /// To the end of its schedule.
    pub fn new() -> StepsCase {
        StepsCase { way: Way::Whole }
    }

    /// `stops ACTOR`: `p`, a seat's number, or `none`.
    pub fn call(&mut self, word: &[u8], arguments: &mut Arguments<'_>) -> Result<(), Fault> {
        if word != b"stops".as_slice() {
            return Err(Fault::UnknownWord);
        }
        let actor = match arguments.word().unwrap_or(b"") {
            b"none" => None,
            b"p" => Some(Actor::P),
            seat => Some(Actor::Seat(short_of(seat)?)),
        };
        self.way = Way::Out(actor);
        Ok(())
    }

    /// Runs an input, and tells what is written, and how it ended where it wasn't done.
    pub fn tell(&self, bytes: &[u8], told: &mut Told) -> Result<(), AllocError> {
        let alloc = told.alloc();
        let mut source = ListSource::new(Vec::from_slice(alloc, bytes)?, PIECE, None);
        let mut sink = ListSink::new(alloc, MOST_WRITTEN)?;
        let end = match self.way {
            Way::Whole => run_steps(alloc, &mut source, &mut sink),
            Way::Out(stopped) => run_steps_out(alloc, &mut source, &mut sink, stopped),
        };
        told.text.extend_from_slice(sink.bytes())?;
        tell_end(&end, told)
    }
}

/// Tells how a run ended where it wasn't done.
fn tell_end(end: &StepsEnd, told: &mut Told) -> Result<(), AllocError> {
    if *end == StepsEnd::OutOfMemory {
        return Err(AllocError);
    }
    let (_, line) = steps_end(told.alloc(), end)?;
    if line.is_empty() {
        return Ok(());
    }
    told.fact(line.as_bytes())
}
