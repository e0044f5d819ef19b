//! A player's line and its mark, in the order on which the law of `waking` stands: a writer tries the line; where it is taken, it marks
//! the line and tries it once more. Each call returns what the next one takes.
ghost use Rattle.std.specs.Prelude.{◌≡◌};
ghost use Rattle.waking.specs.PlayerStates.{next_skipped, player_skipped};

use crate::sending::batch::Line;
use interleaved::Sink;
use std::sync::atomic::{AtomicBool, Ordering};
use std::sync::{Mutex, MutexGuard, Wait};
use waking::{Next, PlayerState};

/// A connection's sink, and whether a writer has skipped it.
#[derive(Drop)]
pub(super) struct MarkedLine<W: Sink> {
    sink: Mutex<Line<W>>,
    skipped: AtomicBool,
}

/// A writer's first try has failed, and the line isn't marked (`failed` in the machine of `waking`). It has no `Drop`, so that it ends in
/// `mark`.
pub(super) struct LineTaken(());

/// The line is marked, and wasn't tried since (`marked`). It has no `Drop`, so that it ends in `try_again`.
pub(super) struct LineMarked(());

/// The line is marked, and another thread has it, which raises the writers' word after it has given it back. It has no `Drop`, so that it
/// ends in `next`.
pub(super) struct LineSkipped(());

impl<W: Sink + Drop> MarkedLine<W> {
    /// No writer has skipped it.
    pub(super) fn new(line: Line<W>) -> MarkedLine<W> {
        MarkedLine {
            sink: Mutex::new(line),
            skipped: AtomicBool::new(false),
        }
    }

    /// Waits for the line, and takes it: the step `wants_line`.
    pub(super) fn lock(&self, rt: &impl Wait) -> MutexGuard<'_, Line<W>> {
        self.sink.lock(rt)
    }

    /// Takes the line, if no thread has it: the step `gets_line`, or `fails`.
    pub(super) fn try_first(&self) -> Result<MutexGuard<'_, Line<W>>, LineTaken> {
        match self.sink.try_lock() {
            Some(sink) => Ok(sink),
            None => Err(LineTaken(())),
        }
    }

    /// Marks the line as skipped: the step `marks_line`.
    pub(super) fn mark(&self, taken: LineTaken) -> LineMarked {
        let LineTaken(()) = taken;
        self.skipped.store(true, Ordering::SeqCst);
        LineMarked(())
    }

    /// Tries the line once more, since a thread that gave it back before the mark wakes no writer: the step `gets_line_late`, or
    /// `skips`.
    pub(super) fn try_again(
        &self,
        marked: LineMarked,
    ) -> Result<MutexGuard<'_, Line<W>>, LineSkipped> {
        let LineMarked(()) = marked;
        match self.sink.try_lock() {
            Some(sink) => Ok(sink),
            None => Err(LineSkipped(())),
        }
    }

    /// Takes the mark: the step `finds_mark`, or `finds_no_mark`. Returns whether there was one.
    pub(super) fn take_mark(&self) -> bool {
        self.skipped.swap(false, Ordering::SeqCst)
    }
}

impl LineSkipped {
    /// What is next for the player, which is to be looked at again.
    pub(super) fn next(self, state: &mut PlayerState) -> Next
        ensures next { result ≡ next_skipped state.old }
        ensures marked { state.new ≡ player_skipped state.old }
    {
        let LineSkipped(()) = self;
        state.skipped()
    }
}
