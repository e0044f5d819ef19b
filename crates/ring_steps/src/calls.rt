use crate::words::{Head, Word};
use base_syntax::Bytes;
use cursor::Answer;
use std::fmt;

/// Who makes a step.
#[derive(Clone, Copy, Debug, PartialEq, Eq)]
pub enum Actor {
    /// The publisher.
    P,
    Seat(u16),
}

impl fmt::Display for Actor {
    ghost use Rattle.std.specs.Prelude.{Some};
    ghost use Rattle.ring_steps.specs.Texts.{actor_text};

    ghost output = { λ actor. Some (actor_text actor) };

    fn fmt<W: fmt::Write>(&self, f: &mut fmt::Formatter<W>) -> fmt::Result {
        match self {
            Actor::P => write!(f, "p"),
            Actor::Seat(seat) => write!(f, "{seat}"),
        }
    }
}

/// A call of the publisher.
#[derive(Debug, Drop)]
pub enum PublisherCall {
    Publish(Bytes),
    Close,
}

/// A call of a seat.
#[derive(Clone, Copy, Debug, PartialEq, Eq)]
pub enum SeatCall {
    /// The seat begins to read, up to so many packets back from the log's end.
    Attach { back: u64 },
    Take,
    Detach,
}

/// What one step did, with the word that it saw before.
#[derive(Clone, Copy, Debug, PartialEq, Eq)]
pub enum Observed {
    Load(Head),
    Pin(Word),
    Unpin(Word),
    Begin(Word),
    Finish(Word),
    /// The length cell, written or read.
    Length(usize),
    /// One byte, written or read.
    Byte(u8),
    /// The head was stored with this length.
    Append(u64),
    /// The head was stored with its closed bit.
    Close,
}

/// What one step did, and the answer of the call that it ended, if it ended one.
#[derive(Debug, Drop)]
pub struct Stepped {
    pub saw: Observed,
    pub answer: Option<Answer>,
}
