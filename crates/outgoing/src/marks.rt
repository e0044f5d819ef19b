//! The lengths of the items that wait, and which of them are frames.
ghost use Rattle.std.specs.Prelude.{◌≡◌, ◌≤◌, ◌∷◌, IfSome, IfNone, if◌then◌else◌};
ghost use Rattle.outgoing.specs.Marks.{DropsWhole, IsCutBy, lengths};

use std::collections::VecDeque;

/// An item that waits: the length of its text, and whether it is a frame.
#[derive(Clone, Copy)]
pub(crate) struct Mark {
    pub(crate) len: usize,
    pub(crate) is_frame: bool,
}

impl Mark {
    /// Returns how many frames it is, 0 or 1.
    pub(crate) fn frames(self) -> usize
        ensures { result ≡ (if self.is_frame then 1 else 0) }
    {
        if self.is_frame { 1 } else { 0 }
    }
}

/// Items that were taken whole.
#[derive(Clone, Copy)]
pub(crate) struct Taken {
    /// How many bytes they have.
    pub(crate) len: usize,
    /// How many of them are frames.
    pub(crate) frames: usize,
}

/// Drops the marks of the items whose last byte is among the first `count` bytes.
pub(crate) fn drop_whole(marks: &mut VecDeque<Mark>, count: usize) -> Taken
    requires { count ≤ lengths marks.old.items }
    ensures { DropsWhole count result marks.old.items marks.new.items }
{
    let mut taken = Taken { len: 0, frames: 0 };
    while let Some(mark) = pop_whole(marks, count - taken.len) {
        taken.len += mark.len;
        taken.frames += mark.frames();
    }
    taken
}

/// Takes the first mark out, if its item has at most this number of bytes.
fn pop_whole(marks: &mut VecDeque<Mark>, most: usize) -> Option<Mark>
    ensures some { IfSome result (λ mark. (marks.old.items ≡ mark ∷ marks.new.items) × (mark.len ≤ most)) }
    ensures none { IfNone result ((marks.new.items ≡ marks.old.items) × IsCutBy most marks.old.items) }
{
    if marks.front()?.len > most {
        return None;
    }
    marks.pop_front()
}
