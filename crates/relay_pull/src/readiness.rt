//! What is known to be ready of a socket, edge by edge.
ghost use Rattle.std.specs.Prelude.{◌≡◌, ◌↔◌, IsTrue, true, false};
ghost use Rattle.relay_pull.specs.Readiness.{MayMove, after_read, after_report, reading_closed, writing_closed};

/// What is known to be ready of a socket. The system reports a change once, when it comes.
#[derive(Clone, Copy, Debug, PartialEq, Eq, Drop)]
pub(crate) struct Readiness {
    /// Whether a read may have bytes.
    pub(crate) has_bytes: bool,
    /// Whether a write may have room.
    pub(crate) has_room: bool,
    /// Whether the peer was reported to send no more: bytes may still be there, and then the end.
    pub(crate) has_end: bool,
    /// Whether it closed its side, and the connection wasn't lost then.
    pub(crate) has_closed: bool,
    /// Whether nothing is read any more.
    pub(crate) is_read: bool,
    /// Whether nothing is written any more.
    pub(crate) is_written: bool,
}

impl Readiness {
    /// Of a new socket nothing is known, so both are tried.
    pub(crate) fn new() -> Readiness
        ensures bytes { result.has_bytes ≡ true }
        ensures room { result.has_room ≡ true }
        ensures open { (result.is_read ≡ false) × (result.is_written ≡ false) }
    {
        Readiness {
            has_bytes: true,
            has_room: true,
            has_end: false,
            has_closed: false,
            is_read: false,
            is_written: false,
        }
    }

    /// The system reports that there are bytes or room, that the peer sends no more, or that it closed its side.
    pub(crate) fn reported(&mut self, bytes: bool, room: bool, end: bool, closed: bool)
        ensures { self.new ≡ after_report bytes room end closed self.old }
    {
        self.has_bytes |= bytes;
        self.has_room |= room;
        self.has_end |= end;
        self.has_closed |= closed;
    }

    /// A read moved bytes, and filled its buffer or didn't. One that doesn't has left nothing, since the system reports what comes later;
    /// but the end is reported once, and may be there already.
    pub(crate) fn has_read(&mut self, is_full: bool)
        ensures { self.new ≡ after_read is_full self.old }
    {
        self.has_bytes = is_full || self.has_end;
    }

    /// Returns whether a read is tried.
    pub(crate) fn may_read(&self) -> bool
        ensures { IsTrue result ↔ MayMove self.now.has_bytes self.now.is_read }
    {
        self.has_bytes && !self.is_read
    }

    /// Returns whether a write is tried.
    pub(crate) fn may_write(&self) -> bool
        ensures { IsTrue result ↔ MayMove self.now.has_room self.now.is_written }
    {
        self.has_room && !self.is_written
    }

    /// Nothing is read any more.
    pub(crate) fn close_reading(&mut self)
        ensures { self.new ≡ reading_closed self.old }
    {
        self.is_read = true;
    }

    /// A write has failed: nothing is written any more, and what came before can still be read.
    pub(crate) fn close_writing(&mut self)
        ensures { self.new ≡ writing_closed self.old }
    {
        self.is_written = true;
        self.has_bytes = true;
        self.has_end = true;
    }
}
