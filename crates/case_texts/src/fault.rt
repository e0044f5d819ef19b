//! Why a text can't be read.

use std::alloc::{AllocError, AllocFailed};
use std::fmt;

/// Why a text can't be read, or its cases can't be run.
#[derive(Clone, Copy, Debug, PartialEq, Eq)]
pub enum Fault {
    /// A case begins before the end of the one before.
    CaseInCase,
    /// A line that belongs to a case stands in none.
    NoCase,
    /// The text ends within a case.
    NoEnd,
    UnknownKind,
    /// A call that the kind of the case doesn't have.
    UnknownWord,
    BadEscape,
    /// A number that is missing, or isn't one, or is too large.
    BadNumber,
    /// An address that is missing, or isn't one.
    BadAddress,
    /// More stands after a call than it takes.
    MoreArguments,
    /// What goes in of a kind that has no such input.
    NoInput,
    /// Nothing goes in before what has to come out.
    NoStep,
    /// A connection is missing, or stands where there is none, or is another than the one before.
    BadConnection,
    /// A line that has to come out stands after `..`.
    BehindRest,
    /// The input isn't exactly one message.
    NoMessage,
    /// A call comes before the one that makes what it is about.
    TooEarly,
    /// No part has this name.
    NoPart,
    /// A URL, a user or a password can't be used.
    BadUrl,
    OutOfMemory,
}

impl fmt::Display for Fault {
    fn fmt<W: fmt::Write>(&self, f: &mut fmt::Formatter<W>) -> fmt::Result {
        f.write_str(match self {
            Fault::CaseInCase => "the case before has no end",
            Fault::NoCase => "no case",
            Fault::NoEnd => "the case has no end",
            Fault::UnknownKind => "unknown kind",
            Fault::UnknownWord => "unknown word",
            Fault::BadEscape => "bad escape",
            Fault::BadNumber => "bad number",
            Fault::BadAddress => "bad address",
            Fault::MoreArguments => "more arguments than the call takes",
            Fault::NoInput => "no lines go in here",
            Fault::NoStep => "nothing goes in before",
            Fault::BadConnection => "bad connection",
            Fault::BehindRest => "a line behind `< ..`",
            Fault::NoMessage => "not exactly one message",
            Fault::TooEarly => "the call comes too early",
            Fault::NoPart => "unknown part",
            Fault::BadUrl => "bad URL",
            Fault::OutOfMemory => "out of memory",
        })
    }
}

impl From<AllocError> for Fault {
    fn from(_error: AllocError) -> Fault {
        Fault::OutOfMemory
    }
}

impl<T: Drop> From<AllocFailed<T>> for Fault {
    fn from(_error: AllocFailed<T>) -> Fault {
        Fault::OutOfMemory
    }
}
