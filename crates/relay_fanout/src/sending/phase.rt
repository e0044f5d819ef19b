//! The phase of the thread that sends a connection's frames.
use std::sync::{Condvar, CondvarTimeouts, Mutex, Wait};
use std::time::{Clock, Duration};
use waking::Phase;

/// How the thread that reads a connection and the thread that sends its frames signal each other.
///
/// Its lock is held for a look or a change, and no other lock is taken meanwhile.
#[derive(Drop)]
pub struct FramePhase {
    phase: Mutex<Phase>,
    changed: Condvar,
}

/// The end of a frame thread was told to the thread that reads. It has no `Drop`, so that it ends in `SentFrames::of_thread`.
pub(super) struct EndTold(());

impl FramePhase {
    /// No frame thread is told to stop.
    pub(crate) fn new() -> FramePhase {
        FramePhase {
            phase: Mutex::new(Phase::new()),
            changed: Condvar::new(),
        }
    }

    /// A frame thread is about to be started.
    pub(crate) fn begin(&self, rt: &impl Wait) {
        *self.phase.lock(rt) = Phase::new();
    }

    /// Requests the frame thread to stop. It has no effect on one that has ended.
    pub fn stop(&self, rt: &impl Wait) {
        self.phase.lock(rt).stop();
        self.changed.notify_all();
    }

    /// The frame thread has nothing more to do.
    pub(super) fn end(&self, rt: &impl Wait) -> EndTold {
        self.phase.lock(rt).end();
        self.changed.notify_all();
        EndTold(())
    }

    /// Returns whether the frame thread may go on.
    pub(crate) fn is_running(&self, rt: &impl Wait) -> bool {
        self.phase.lock(rt).is_running()
    }

    /// Sleeps until the frame thread is requested to stop, for at most `most`. Returns whether it was.
    pub(crate) fn wait_for_stop<R: Wait + Clock>(&self, rt: &R, most: Duration) -> bool {
        let (phase, _) = self
            .changed
            .wait_timeout_while(rt, self.phase.lock(rt), most, |phase| {
                phase.is_running()
            });
        !phase.is_running()
    }

    /// Sleeps until the frame thread has ended, for at most `most`. Returns whether it has.
    pub fn wait_for_end<R: Wait + Clock>(&self, rt: &R, most: Duration) -> bool {
        let (phase, _) = self
            .changed
            .wait_timeout_while(rt, self.phase.lock(rt), most, |phase| {
                !phase.has_ended()
            });
        phase.has_ended()
    }
}

impl EndTold {
    /// It is known.
    pub(super) fn spend(self) {
        let EndTold(()) = self;
    }
}
