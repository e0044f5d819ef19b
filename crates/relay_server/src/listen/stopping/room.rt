//! Whether one more connection may have a thread.
ghost use Rattle.std.specs.Prelude.{◌≡◌, ◌↔◌, ◌<◌, IsSome, IsTrue};

use crate::limits::MOST_LIVE;
use relay_log::Refusal;

/// Room for the thread of one more connection. Only the thread that accepts adds connections, so the room stays meanwhile. It has
/// no `Drop`, so that it ends in `Stopping::come` or `refuse`.
pub(crate) struct Room(());

impl Room {
    /// Returns room for one more if there is some beside `live` connections that have a thread.
    pub(super) fn beside(live: u64) -> Option<Room>
        ensures { IsSome result ↔ live < 1088 }
    {
        if has_room(live) { Some(Room(())) } else { None }
    }

    /// A connection has it.
    pub(super) fn fill(self) {
        let Room(()) = self;
    }

    /// No connection has it, for this reason.
    pub(crate) fn refuse(self, why: Refusal) -> Refusal
        ensures { result ≡ why }
    {
        let Room(()) = self;
        why
    }
}

/// Whether one more connection may have a thread beside `live` that have one: 1,088 may.
fn has_room(live: u64) -> bool
    ensures { IsTrue result ↔ live < 1088 }
{
    live < MOST_LIVE
}
