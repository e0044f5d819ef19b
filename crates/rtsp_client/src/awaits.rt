//! What a client waits for from the program that drives it.

use crate::asked::Asked;

/// What a client waits for from the program, before it asks the source for anything more.
#[derive(Clone, Copy, Debug, PartialEq, Eq, Drop)]
pub enum Awaits {
    /// Nothing.
    Nothing,
    /// What the description says: `described` or `description_is_bad`.
    Description,
    /// A connection to the place where the description is: `redirected`.
    Connection,
    /// Whether there is a password for the challenge to this request: `answers_challenge`.
    Password { asked: Asked },
    /// Nothing: there is a password, and this request is sent once more.
    Again { asked: Asked },
}
