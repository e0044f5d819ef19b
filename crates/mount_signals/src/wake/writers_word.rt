//! What the writers of a server sleep on.
use crate::limits::MOST_WRITERS;
use crate::wake::wake_word::WakeWord;
use server_counts::Mark;
use std::array;
use std::sync::Wait;
use std::sync::atomic::{AtomicU64, Ordering};

/// The word that writers sleep on, and how each of them read it last.
#[derive(Drop)]
pub struct WritersWord {
    writer_wakeups: WakeWord,
    read: [AtomicU64; MOST_WRITERS],
}

/// The word as a writer read it at the beginning of a sweep: `read` of a writer in the machine of `waking`. It has no `Drop`, so
/// that it ends in `sleep` or `put_down`, and a sleep is on the word that was read before the players were looked at.
pub struct WordRead {
    writer_wakeups: u64,
}

/// Why a writer doesn't sleep on the word that it read.
#[derive(Clone, Copy, Debug, PartialEq, Eq, Drop)]
pub enum Awake {
    /// The writers were stopped.
    Stopped,
    /// A player is to be looked at again at once, or the list has changed.
    SweepsAgain,
}

impl WritersWord {
    /// It wasn't raised.
    pub(crate) fn new() -> WritersWord {
        WritersWord {
            writer_wakeups: WakeWord::new(),
            read: array::from_fn(|_| AtomicU64::new(0)),
        }
    }

    /// Wakes all writers, so that each looks at its players.
    ///
    /// Called after the change that a look is to see: a wake-up was counted, a player came, a marked writing side was given
    /// back, or the writers were stopped.
    pub fn raise(&self) {
        self.writer_wakeups.raise();
    }

    /// The writer of this number reads the word, before it looks at its players: the step `begins`.
    pub fn read(&self, writer: usize) -> WordRead {
        let writer_wakeups = self.writer_wakeups.load();
        if let Some(read) = self.read.get(writer) {
            read.store(writer_wakeups, Ordering::SeqCst);
        }
        WordRead { writer_wakeups }
    }

    /// Returns the mark of the writer of this number: raised if the word isn't what the writer read last. `None` if there is no such
    /// number.
    pub(crate) fn mark(&self, writer: usize) -> Option<Mark> {
        let looks = self.read.get(writer)?.load(Ordering::SeqCst);
        Some(Mark {
            is_raised: self.writer_wakeups.load() != looks,
            looks,
        })
    }

    /// Sleeps while the word is the one that was read, for at most `most` milliseconds: the steps `sleeps` and `returns`. It may
    /// also return for no reason.
    pub fn sleep(&self, rt: &impl Wait, read: WordRead, most: Option<u64>) {
        let WordRead { writer_wakeups } = read;
        self.writer_wakeups.sleep(rt, writer_wakeups, most);
    }
}

impl WordRead {
    /// The writer doesn't sleep, for this reason, and reads the word anew if it goes on.
    pub fn put_down(self, _why: Awake) {
        let WordRead { writer_wakeups: _ } = self;
    }
}
