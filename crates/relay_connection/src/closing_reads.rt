//! The last reads of a connection, after its last text.
use crate::connection_clock::Watch;
use crate::limits::{AFTER_TEXT, LAST_READS};
use interleaved::Source;
use sockets::{HangUp, close_behind_text};

/// A read of a connection that nothing comes to fails. Nothing else makes it, so that no peer that says nothing after its last text
/// keeps its connection.
#[derive(Drop)]
pub(crate) struct ClosingReads(());

impl ClosingReads {
    /// Reads that nothing comes to fail from now on.
    pub(crate) fn of(watch: &Watch) -> ClosingReads {
        watch.close();
        ClosingReads(())
    }

    /// Closes the writing side, and gives the peer a moment to read the text.
    pub(crate) fn close_behind<S: Source>(self, shutdown: &impl HangUp, source: &mut S) {
        close_behind_text(shutdown, source, LAST_READS, AFTER_TEXT);
    }
}
