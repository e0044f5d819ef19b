//! The steps of a case.

use crate::escapes::{Ending, resolve, resolved};
use crate::fault::Fault;
use crate::told::Told;
use std::alloc::Global;

/// What goes in.
#[derive(Drop)]
pub enum Input {
    /// Lines, by a connection or without one.
    Block { from: Option<u32>, bytes: Vec<u8> },
    /// A call, with its arguments.
    Call(Vec<u8>),
    /// The case is at its end.
    End,
}

/// What goes in, and what has to come out of it.
#[derive(Drop)]
pub(crate) struct Step {
    /// The number of its first line.
    pub line: usize,
    pub input: Input,
    expected: Told,
    /// What has to come out begins with the text that is expected.
    is_front: bool,
    /// Whether what is expected has begun.
    is_answered: bool,
}

impl Step {
    /// A step that nothing is expected of so far.
    pub fn new(alloc: Global, line: usize, input: Input) -> Step {
        Step {
            line,
            input,
            expected: Told::nothing(alloc),
            is_front: false,
            is_answered: false,
        }
    }

    pub fn expected(&self) -> &Told {
        &self.expected
    }

    /// Whether a line of this connection goes on with what goes in.
    pub fn is_continued(&self, connection: Option<u32>) -> bool {
        match &self.input {
            Input::Block { from, .. } => !self.is_answered && *from == connection,
            _ => false,
        }
    }

    /// Adds a line to what goes in.
    pub fn add_input(&mut self, line_end: &[u8], text: &[u8]) -> Result<(), Fault> {
        match &mut self.input {
            Input::Block { bytes, .. } => add_line(bytes, line_end, text),
            _ => Err(Fault::NoInput),
        }
    }

    /// One more line has to come out, to this connection.
    pub fn expect_output(
        &mut self,
        line_end: &[u8],
        to: Option<u32>,
        text: &[u8],
    ) -> Result<(), Fault> {
        if to != self.connection() {
            return Err(Fault::BadConnection);
        }
        if self.is_front {
            return Err(Fault::BehindRest);
        }
        self.is_answered = true;
        if text == b"..".as_slice() {
            self.is_front = true;
            return Ok(());
        }
        add_line(&mut self.expected.text, line_end, text)
    }

    /// One more fact has to be told.
    pub fn expect_fact(&mut self, text: &[u8]) -> Result<(), Fault> {
        self.is_answered = true;
        let fact = resolved(self.expected.alloc(), text)?;
        self.expected.fact(&fact)?;
        Ok(())
    }

    /// The connection that the input comes from.
    fn connection(&self) -> Option<u32> {
        match &self.input {
            Input::Block { from, .. } => *from,
            _ => None,
        }
    }

    /// What goes in, and has no fact, has to be told as usual.
    pub fn expect_usual(&mut self, fact: Option<&[u8]>) -> Result<(), Fault> {
        match (&self.input, fact) {
            (Input::Block { .. }, Some(fact)) if self.expected.facts.is_empty() => {
                Ok(self.expected.fact(fact)?)
            }
            _ => Ok(()),
        }
    }

    /// Whether this is what had to come out.
    pub fn holds(&self, came: &Told) -> bool {
        let text = self.expected.text.as_slice();
        let is_text = if self.is_front {
            came.text.starts_with(text)
        } else {
            came.text.as_slice() == text
        };
        is_text && came.facts.as_slice() == self.expected.facts.as_slice()
    }
}

/// Adds a line with its end, which a single backslash at the end of the text leaves out.
fn add_line(out: &mut Vec<u8>, line_end: &[u8], text: &[u8]) -> Result<(), Fault> {
    if resolve(out, text)? == Ending::Plain {
        out.extend_from_slice(line_end)?;
    }
    Ok(())
}
