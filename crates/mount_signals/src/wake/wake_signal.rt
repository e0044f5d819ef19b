//! What the waking thread sleeps on, and what it does in each of its rounds.
use crate::limits::BURST;
use crate::mount::marks::Counted;
use crate::mount::recording_mounts::RecordingMount;
use crate::wake::end_flag::EndFlag;
use crate::wake::writers_word::WritersWord;
use server_counts::Mark;
use std::sync::Wait;
use std::sync::atomic::{AtomicU64, Ordering};
use std::thread;
use std::time::{Clock, Duration};

/// The waking thread sleeps or is about to.
const QUIET: u64 = 0;

/// Packets gather.
const NOTIFIED: u64 = 1;

/// A mount has gathered a full batch (16 packets).
const URGENT: u64 = 2;

/// What a publisher notifies when it has published, and what the waking thread sleeps on while none does.
#[derive(Drop)]
pub struct WakeSignal {
    /// `QUIET`, `NOTIFIED` or `URGENT`.
    state: AtomicU64,
    /// How often the waking thread cleared it.
    cleared: AtomicU64,
    stopped: EndFlag,
    /// What writers sleep on.
    pub writers: WritersWord,
}

/// The signal was cleared, and no mount was asked for its marks since: the step `clears` of the machine of `waking`. It has no
/// `Drop`, so that it ends in `ask`.
pub(crate) struct Cleared(());

/// Each mount was asked for its marks, and the writers' word wasn't raised since for those that had some (`owed`). It has no
/// `Drop`, so that it ends in `raise`.
pub(crate) struct Asked {
    counted: Option<Counted>,
}

/// A round of the waking thread is over, but for the look whether it is stopped. It has no `Drop`, so that it ends in
/// `is_stopped`.
pub(crate) struct Raised(());

impl WakeSignal {
    /// It isn't notified yet.
    pub fn new() -> WakeSignal {
        WakeSignal {
            state: AtomicU64::new(QUIET),
            cleared: AtomicU64::new(0),
            stopped: EndFlag::new(),
            writers: WritersWord::new(),
        }
    }

    /// Notifies that some mount was marked. Costs a load unless the waking thread sleeps. Returns whether this is
    /// the first notification since it began to ask mounts for marks.
    pub(crate) fn notify(&self) -> bool {
        let is_first = self.state.load(Ordering::SeqCst) == QUIET
            && self
                .state
                .compare_exchange(QUIET, NOTIFIED, Ordering::SeqCst, Ordering::SeqCst)
                .is_ok();
        if is_first {
            self.state.wake_one();
        }
        is_first
    }

    /// Notifies that some mount has a full batch, which needn't gather longer.
    pub(crate) fn hurry(&self) {
        if self.state.swap(URGENT, Ordering::SeqCst) != URGENT {
            self.state.wake_one();
        }
    }

    /// Returns the mark of the waking thread: raised from a notification until the thread clears the signal.
    pub fn waking_mark(&self) -> Mark {
        let looks = self.cleared.load(Ordering::SeqCst);
        Mark {
            is_raised: self.state.load(Ordering::SeqCst) != QUIET,
            looks,
        }
    }

    /// Returns the mark of the writer of this number. `None` if there is no such number.
    pub fn writer_mark(&self, writer: usize) -> Option<Mark> {
        self.writers.mark(writer)
    }

    /// Ends the waking thread.
    pub fn stop(&self) {
        self.stopped.set().notify(self);
    }

    /// Sleeps until it is notified.
    pub(super) fn wait(&self, rt: &impl Wait) {
        for _ in rt.forever() {
            if self.state.load(Ordering::SeqCst) != QUIET {
                return;
            }
            self.state.park(rt, QUIET as u32);
        }
    }

    /// Lets packets gather for `time`, or until a mount has a full batch and the rest of its burst has come.
    pub(super) fn gather<R: Wait + Clock>(&self, rt: &R, time: Duration) {
        if time.is_zero() {
            return;
        }
        if self.state.load(Ordering::SeqCst) == NOTIFIED {
            self.state.park_timeout(rt, NOTIFIED as u32, time);
        }
        if self.state.load(Ordering::SeqCst) == URGENT {
            thread::sleep(rt, time.min(Duration::from_millis(BURST)));
        }
    }

    /// Clears the signal, before the mounts are asked for marks: what is published from here on notifies again, and what was
    /// published before is marked already.
    pub(super) fn clear(&self) -> Cleared {
        self.cleared.fetch_add(1, Ordering::SeqCst);
        self.state.store(QUIET, Ordering::SeqCst);
        Cleared(())
    }

    /// Returns whether the waking thread is to end. A stop before the signal was cleared is seen here, and one after it notifies.
    pub(super) fn is_stopped(&self, after: Raised) -> bool {
        let Raised(()) = after;
        self.stopped.is_set()
    }
}

impl Cleared {
    /// Asks each mount for its marks, and counts a wake-up for each that had some: the steps `finds_no_marks`, or `takes_marks`
    /// and `counts`.
    pub(crate) fn ask(self, mounts: &[RecordingMount]) -> Asked {
        let Cleared(()) = self;
        let mut counted = None;
        for registered in mounts.iter() {
            counted = Counted::of_both(counted, registered.signal.wake_if_marked());
        }
        Asked { counted }
    }
}

impl Asked {
    /// Raises the writers' word once for all mounts that had marks: the step `raises_once`.
    pub(super) fn raise(self, wake_signal: &WakeSignal) -> Raised {
        let Asked { counted } = self;
        if let Some(counted) = counted {
            counted.raise(&wake_signal.writers);
        }
        Raised(())
    }
}
