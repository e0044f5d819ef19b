//! The waits of a connection that is about to end.
use crate::limits::AFTER_TEXT;
use sockets::HangUp;

/// The reads and writes of a connection wait for no longer than a moment each. Nothing else makes it, so that no last text, which
/// takes it, waits for a peer that reads nothing.
#[derive(Drop)]
pub(crate) struct LimitedWaits(());

impl LimitedWaits {
    /// Limits the waits of what a connection runs over.
    pub(crate) fn of(shutdown: &impl HangUp) -> LimitedWaits {
        shutdown.limit_waits(AFTER_TEXT);
        LimitedWaits(())
    }
}
