//! What the cases of a text are run over.

use crate::book_cases::Cutting;
use crate::kind::{KINDS, Topic};
use crate::subject::Subject;
use case_texts::{Fault, Input, Suite, Told};
use std::alloc::Global;
use std::collections::hash_map::RandomState;

/// Cases of all kinds, over books that cut their entries off so.
#[derive(Clone, Copy, Drop)]
pub struct Cases {
    pub alloc: Global,
    pub hasher: RandomState,
    pub cutting: Cutting,
}

impl Suite for Cases {
    type Kind = Topic;

    type Subject = Subject;

    fn kinds(&self) -> &[Topic] {
        &KINDS
    }

    fn begin(&self, topic: Topic) -> Result<Subject, Fault> {
        Ok(Subject::new(self.alloc, self.hasher, self.cutting, topic)?)
    }

    fn run(&self, subject: &mut Subject, input: &Input, told: &mut Told) -> Result<(), Fault> {
        subject.run(input, told)
    }
}
