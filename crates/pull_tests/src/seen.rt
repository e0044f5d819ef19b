//! What a test sees of the connections of all tries: their clock, and what was written to them.

use rtsp_client::Side;
use std::alloc::Global;
use std::cell::{Cell, RefCell};

/// The clock of a station and of its connections, and what was written to each side in all tries.
#[derive(Drop)]
pub(crate) struct Seen {
    now: Cell<u64>,
    source: RefCell<Vec<u8>>,
    target: RefCell<Vec<u8>>,
    /// When the source had its first request after PLAY, and how many frames it had sent by then.
    after_play: Cell<Option<(u64, u64)>>,
}

impl Seen {
    /// The clock is at 0, and nothing was written.
    pub(crate) fn new(alloc: Global) -> Seen {
        Seen {
            now: Cell::new(0),
            source: RefCell::new(Vec::new(alloc)),
            target: RefCell::new(Vec::new(alloc)),
            after_play: Cell::new(None),
        }
    }

    /// Returns the moment, in milliseconds.
    pub(crate) fn now(&self) -> u64 {
        self.now.get()
    }

    /// Time passes.
    pub(crate) fn passes(&self, milliseconds: u64) {
        self.now.set(self.now.get().saturating_add(milliseconds));
    }

    /// These bytes are written to a side.
    pub(crate) fn writes(&self, side: Side, bytes: &[u8]) {
        if let Ok(mut text) = self.text(side).try_borrow_mut() {
            let _ = text.extend_from_slice(bytes);
        }
    }

    /// Returns whether this text was written to a side.
    pub(crate) fn has(&self, side: Side, text: &[u8]) -> bool {
        match self.text(side).try_borrow() {
            Ok(written) => places_of(written.as_slice(), text) > 0,
            Err(_) => false,
        }
    }

    /// The source has a request after PLAY, by when it has sent this number of frames.
    pub(crate) fn asks_after_play(&self, frames: u64) {
        if self.after_play.get().is_none() {
            self.after_play.set(Some((self.now(), frames)));
        }
    }

    /// Returns when the source had its first request after PLAY, and how many frames it had sent by then.
    pub(crate) fn after_play(&self) -> Option<(u64, u64)> {
        self.after_play.get()
    }

    /// Returns what was written to a side.
    fn text(&self, side: Side) -> &RefCell<Vec<u8>> {
        match side {
            Side::Source => &self.source,
            Side::Target => &self.target,
        }
    }
}

/// Returns at how many places of these bytes a text stands.
pub(crate) fn places_of(bytes: &[u8], text: &[u8]) -> usize {
    let mut count = 0usize;
    for place in 0..bytes.len() {
        if let Some(rest) = bytes.get(place..) {
            if rest.starts_with(text) {
                count = count.saturating_add(1);
            }
        }
    }
    count
}
