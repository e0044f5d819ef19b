use crate::calls::{Actor, Observed};
use cursor::Answer;

/// What a run did: its steps, and the events of the log in the order of their acting steps.
#[derive(Debug, Drop)]
pub struct Trace {
    pub steps: Vec<TraceStep>,
    pub events: Vec<TraceEvent>,
}

/// One step of a run.
#[derive(Clone, Copy, Debug, PartialEq, Eq)]
pub struct TraceStep {
    pub actor: Actor,
    pub saw: Observed,
}

/// One answered call of a run. The pins that refused a publish are those of the word that its step saw.
#[derive(Debug, Drop)]
pub struct TraceEvent {
    /// The step at which the call acts, from 0.
    pub step: usize,
    pub actor: Actor,
    pub answer: Answer,
}
