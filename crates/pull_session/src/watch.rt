//! The times of a try: silence of the source, a target that takes nothing, and the end.
ghost use Rattle.std.specs.Prelude.{◌≡◌, Some, None, true, is_some};
ghost use Rattle.pull_session.specs.Watches.{first_of, has_come, is_ago, moment_after, renewed, waiting_since};

use crate::limits::{CLOSING_WAIT, READING_WAIT, TARGET_WAIT};

/// The times of a try, in milliseconds of one clock.
#[derive(Clone, Copy, Debug, PartialEq, Eq, Drop)]
pub struct Watch {
    /// When the last frame came that goes on to the target, or PLAY was sent. `None` before. The time in which the source isn't read doesn't
    /// count.
    pub(crate) heard: Option<u64>,
    /// When the source was last not read. `None` if it was always.
    pub(crate) unread: Option<u64>,
    /// When the target last took a byte, or bytes began to wait for it. `None` if none wait.
    pub(crate) taken: Option<u64>,
    /// Until when replies to TEARDOWN are waited for. `None` if the try isn't closing.
    pub(crate) closes_at: Option<u64>,
}

impl Watch {
    /// Nothing came, nothing waits and nothing is closing.
    pub(crate) fn new() -> Watch
        ensures { result ≡ record { heard = None; unread = None; taken = None; closes_at = None } }
    {
        Watch {
            heard: None,
            unread: None,
            taken: None,
            closes_at: None,
        }
    }

    /// A frame comes that goes on to the target, or PLAY is sent.
    pub(crate) fn hears(&mut self, now: u64)
        ensures { self.new ≡ record self.old { heard = Some now } }
    {
        self.heard = Some(now);
    }

    /// The source isn't read at this moment, since too much waits for the target. This time doesn't count as silence.
    pub(crate) fn skips(&mut self, now: u64)
        ensures { self.new ≡ record self.old { heard = renewed self.old.heard now; unread = Some now } }
    {
        self.unread = Some(now);
        if self.heard.is_some() {
            self.heard = Some(now);
        }
    }

    /// Some bytes wait for the target at this moment, or none, and it has taken some or none.
    pub(crate) fn waits(&mut self, some: bool, has_taken: bool, now: u64)
        ensures { self.new ≡ record self.old { taken = waiting_since some has_taken self.old.taken now } }
    {
        if !some {
            self.taken = None;
        } else if has_taken || self.taken.is_none() {
            self.taken = Some(now);
        }
    }

    /// The try is closing. The time for that isn't begun anew.
    pub(crate) fn closes(&mut self, now: u64)
        ensures { self.new ≡ record self.old { closes_at = first_of self.old.closes_at (moment_after now 1000) } }
    {
        if self.closes_at.is_none() {
            self.closes_at = Some(now.saturating_add(CLOSING_WAIT));
        }
    }

    /// Returns whether the source was read for a second or more, so that a reply that was there has been read.
    pub(crate) fn has_read(&self, now: u64) -> bool
        ensures { result ≡ true → is_some self.now.unread ≡ true → is_ago self.now.unread 1000 now ≡ true }
    {
        match self.unread {
            Some(at) => now.saturating_sub(at) >= READING_WAIT,
            None => true,
        }
    }

    /// Returns whether no frame came for this number of milliseconds or more.
    pub(crate) fn is_silent(&self, now: u64, least: u64) -> bool
        ensures { result ≡ is_ago self.now.heard least now }
    {
        match self.heard {
            Some(at) => now.saturating_sub(at) >= least,
            None => false,
        }
    }

    /// Returns whether the target took no byte for 20 seconds.
    pub(crate) fn is_stalled(&self, now: u64) -> bool
        ensures { result ≡ is_ago self.now.taken 20000 now }
    {
        match self.taken {
            Some(at) => now.saturating_sub(at) >= TARGET_WAIT,
            None => false,
        }
    }

    /// Returns whether the try is closing.
    pub(crate) fn is_closing(&self) -> bool
        ensures { result ≡ is_some self.now.closes_at }
    {
        self.closes_at.is_some()
    }

    /// Returns whether replies to TEARDOWN were waited for long enough.
    pub(crate) fn is_closed(&self, now: u64) -> bool
        ensures { result ≡ has_come self.now.closes_at now }
    {
        match self.closes_at {
            Some(at) => at <= now,
            None => false,
        }
    }
}
