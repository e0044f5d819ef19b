use crate::calls::{Actor, Observed};
use cursor::Answer;

/// A step of a run, and the answer of the call that it ended, if it ended one.
#[derive(Debug, Drop)]
pub(crate) struct Made {
    pub(crate) actor: Actor,
    pub(crate) saw: Observed,
    pub(crate) answer: Option<Answer>,
}
