//! What is due for the rows of refusals.
use crate::refusal_row::RefusalRow;

/// What the thread that writes the rows of refusals does next.
#[derive(Drop)]
pub enum Due {
    /// The moment has come that was set by `Refusing::wake_at`.
    Moment,
    Row(RefusalRow),
    /// Nothing is refused any more, and all is written.
    End,
}
