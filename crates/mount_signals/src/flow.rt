//! Which players of a mount keep up with its publisher, and what the publisher sleeps on while it waits for them.
//!
//! The pace's lock is held for a look at each seat or a change of one; senders take it under their own locks, and no other is taken
//! under it.
pub(crate) mod locked_round;
pub(crate) mod pace;
pub(crate) mod round_change;
