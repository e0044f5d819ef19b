//! What a thread does that has written a reply: the line is given back, its mark is taken and, if there was one, the word is
//! raised. The law of `waking` is about this order, so each call returns what the next one takes.
use crate::sending::writing_side::WritingSide;
use interleaved::{Failed, Sink};
use mount_signals::WritersWord;
use std::sync::Wait;

/// The line was given back, and its mark wasn't looked for since: the thread is `parting` in the machine of `waking`. It has no
/// `Drop`, so that it ends in `take_mark`.
pub(super) struct GivenBack<'a, W: Sink> {
    writing: &'a WritingSide<W>,
}

/// The line's mark was taken: a writer passed the line over, and wasn't woken since (`raising`). It has no `Drop`, so that it ends
/// in `raise`.
pub(super) struct MarkTaken(());

impl<'a, W: Sink + Drop> GivenBack<'a, W> {
    /// Writes a reply, and gives the line back: the steps `wants_line` and `gives_back`. Returns whether the reply was written.
    pub(super) fn after_write(
        rt: &impl Wait,
        writing: &'a WritingSide<W>,
        text: &[u8],
    ) -> (Result<(), Failed>, GivenBack<'a, W>) {
        let written = writing.write(rt, text);
        (written, GivenBack { writing })
    }

    /// Takes the mark, if there is one: the step `finds_mark`, or `finds_no_mark`. A writer that marks the line after this gets it
    /// at its second try.
    pub(super) fn take_mark(self) -> Option<MarkTaken> {
        let GivenBack { writing } = self;
        if writing.was_skipped() {
            Some(MarkTaken(()))
        } else {
            None
        }
    }
}

impl MarkTaken {
    /// Wakes the writers: the step `raises_for_it`.
    pub(super) fn raise(self, writers: &WritersWord) {
        let MarkTaken(()) = self;
        writers.raise();
    }
}
