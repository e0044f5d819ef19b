//! What a program does after it has told a client something.

use crate::end::End;

/// What a program does after it has told a client something. It then asks `next` what is to be sent.
#[derive(Clone, Copy, Debug, PartialEq, Eq, Drop)]
pub enum Turn {
    /// Nothing else.
    GoesOn,
    /// It logs that a reply was passed over: that of no request, or of an earlier one.
    PassesOver,
    /// It reads the description in the reply's body, and calls `described` or `description_is_bad`.
    ReadsDescription,
    /// It connects to the place that the reply's Location names, and calls `redirected`.
    Redirects,
    /// It reads the challenge in the reply, and calls `answers_challenge`.
    Challenged,
    /// It logs that the source refused this track with this status. The others go on.
    LeavesOut { track: usize, status: u16 },
    /// It closes both connections.
    Ends(End),
}
