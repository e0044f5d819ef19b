//! What all threads of a server share.
use crate::server_book::SharedBook;
use mount_signals::{RecordingMounts, WakeSignal, wake_players};
use mounts::MAX_MOUNTS;
use relay_fanout::{Maker, Offers, Seat};
use server_counts::ServerCounts;
use std::alloc::{AllocError, Global};
use std::sync::{Arc, Mutex, Wait};
use std::time::{Clock, Duration};

/// What all threads of a server share.
pub struct Shared<M: Maker, V, G> {
    pub(crate) maker: M,
    pub book: SharedBook<Seat<M::Pass>>,
    pub(crate) offers: Offers<M>,
    pub(crate) words: Mutex<V>,
    pub gate: G,
    pub(crate) recording: RecordingMounts,
    pub wake_signal: Arc<WakeSignal, Global>,
    pub counts: Arc<ServerCounts, Global>,
    /// For how long a player's connection may stay open after the last packet of its mount was written. `None` for ever.
    pub(crate) after_end: Option<Duration>,
}

impl<M: Maker + Drop, V: Drop, G: Drop> Drop for Shared<M, V, G> {
    fn drop(self) {
        let Shared {
            maker: _,
            book: _,
            offers: _,
            words: _,
            gate: _,
            recording: _,
            wake_signal: _,
            counts: _,
            after_end: _,
        } = self;
    }
}

impl<M: Maker + Drop, V: Drop, G: Drop> Shared<M, V, G> {
    /// The book and the maker have the same number of seats. If they haven't, no offer is what the book asks for, and each
    /// ANNOUNCE is answered 503.
    ///
    /// With `after_end` a player is sent the end of its stream after the last packet of its mount, and is disconnected if it is
    /// still connected that long after it. Sessions are counted in `counts`.
    pub fn new(
        alloc: Global,
        maker: M,
        book: SharedBook<Seat<M::Pass>>,
        words: V,
        gate: G,
        after_end: Option<Duration>,
        counts: Arc<ServerCounts, Global>,
    ) -> Result<Shared<M, V, G>, AllocError> {
        let wake_signal = Arc::new(alloc, WakeSignal::new())?;
        Ok(Shared {
            maker,
            book,
            offers: Offers::new(),
            words: Mutex::new(words),
            gate,
            recording: RecordingMounts::new(alloc, MAX_MOUNTS)?,
            wake_signal,
            counts,
            after_end,
        })
    }

    /// Returns how many mounts are being recorded: those with a RECORD that haven't ended.
    pub fn recorded(&self, rt: &impl Wait) -> usize {
        self.recording.len(rt)
    }
}

impl<M: Maker, V, G> Shared<M, V, G> {
    /// Wakes the players of each mount that packets came to, until that is stopped. Packets gather for `gather` before that.
    /// Runs on a thread of its own.
    pub fn wake_players<R: Wait + Clock>(&self, rt: &R, gather: Duration) {
        wake_players(rt, &self.wake_signal, &self.recording, gather);
    }

    /// Ends `wake_players`.
    pub fn stop_waking(&self) {
        self.wake_signal.stop();
    }
}
