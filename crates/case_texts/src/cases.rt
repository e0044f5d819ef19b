//! A case.

use crate::fault::Fault;
use crate::step::{Input, Step};
use crate::suite::Kind;
use std::alloc::{AllocError, Global};

/// A case, as far as it is read.
#[derive(Drop)]
pub(crate) struct Case<K, S> {
    pub kind: K,
    /// The place of its kind among all.
    pub place: usize,
    /// The name of its kind, and its own.
    pub title: Vec<u8>,
    pub subject: S,
    /// The step that is not run yet.
    step: Option<Step>,
}

impl<K: Kind, S: Drop> Case<K, S> {
    /// A case that begins.
    pub fn new(
        alloc: Global,
        kind: K,
        place: usize,
        title: &[u8],
        subject: S,
    ) -> Result<Case<K, S>, AllocError> {
        Ok(Case {
            kind,
            place,
            title: Vec::from_slice(alloc, title)?,
            subject,
            step: None,
        })
    }

    /// Takes the step that is not run yet.
    pub fn take_step(&mut self) -> Option<Step> {
        self.step.take()
    }

    /// Returns whether a line of this connection goes on with the step.
    pub fn is_continued(&self, from: Option<u32>) -> bool {
        match &self.step {
            Some(step) => step.is_continued(from),
            None => false,
        }
    }

    /// Begins a step.
    pub fn begin(&mut self, alloc: Global, line: usize, input: Input) {
        self.step = Some(Step::new(alloc, line, input));
    }

    /// Adds a line to what goes in.
    pub fn add_input(&mut self, text: &[u8]) -> Result<(), Fault> {
        let line_end = self.kind.line_end();
        match &mut self.step {
            Some(step) => step.add_input(line_end, text),
            None => Err(Fault::NoStep),
        }
    }

    /// One more line has to come out of the step, to this connection.
    pub fn expect_output(&mut self, to: Option<u32>, text: &[u8]) -> Result<(), Fault> {
        let line_end = self.kind.line_end();
        match &mut self.step {
            Some(step) => step.expect_output(line_end, to, text),
            None => Err(Fault::NoStep),
        }
    }

    /// One more fact has to be told of the step.
    pub fn expect_fact(&mut self, text: &[u8]) -> Result<(), Fault> {
        match &mut self.step {
            Some(step) => step.expect_fact(text),
            None => Err(Fault::NoStep),
        }
    }
}
