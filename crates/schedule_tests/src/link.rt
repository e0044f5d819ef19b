//! A player's connection.
use waking::{Next, PlayerState};

/// How many bytes a packet's frame has.
const FRAME: u64 = 100;

/// A player's connection: its line, its socket, and what its writer knows of it.
#[derive(Clone, Copy, Drop)]
pub(crate) struct Link {
    /// `None` while it doesn't play.
    pub(crate) state: Option<PlayerState>,
    /// Which of its connection's players it is.
    pub(crate) number: u64,
    /// Whether a writer looks at it.
    pub(crate) is_looked_at: bool,
    /// Whether somebody has its line.
    pub(crate) is_taken: bool,
    /// Whether a writer has marked its line as skipped.
    pub(crate) is_skipped: bool,
    /// How many packets of its mount's log it has taken or passed.
    pub(crate) cursor: u64,
    /// How many bytes wait that its socket didn't take.
    pub(crate) waiting: u64,
    /// How many bytes its socket takes now.
    pub(crate) room: u64,
    pub(crate) has_failed: bool,
    /// When its socket last took a byte, or the first had to wait.
    pub(crate) since: u64,
    /// Whether it had taken all since it came, or came back, into its mount's pace.
    pub(crate) is_awaited: bool,
    /// What its writer does next with it.
    pub(crate) next: Next,
}

impl Link {
    pub(crate) fn new() -> Link {
        Link {
            state: None,
            number: 0,
            is_looked_at: false,
            is_taken: false,
            is_skipped: false,
            cursor: 0,
            waiting: 0,
            room: 0,
            has_failed: false,
            since: 0,
            is_awaited: false,
            next: Next::Sleep,
        }
    }

    /// Takes up to two packets of a log of `logged`. Returns how many it took.
    pub(crate) fn take(&mut self, logged: u64) -> u64 {
        let taken = logged.saturating_sub(self.cursor).min(2);
        self.cursor = self.cursor.saturating_add(taken);
        self.waiting = self.waiting.saturating_add(taken.saturating_mul(FRAME));
        taken
    }

    /// Its socket takes what it has room for. Returns whether it took a byte.
    pub(crate) fn flush(&mut self, now: u64) -> bool {
        let taken = self.waiting.min(self.room);
        self.waiting = self.waiting.saturating_sub(taken);
        self.room = self.room.saturating_sub(taken);
        if taken > 0 {
            self.since = now;
        }
        taken > 0
    }

    /// Its peer reads, so that there is room for some frames and a part of one.
    pub(crate) fn make_room(&mut self, frames: u64) {
        let bytes = frames.saturating_mul(FRAME).saturating_add(FRAME / 2);
        self.room = self.room.saturating_add(bytes).min(8 * FRAME);
    }
}
