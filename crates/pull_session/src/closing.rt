//! The end of a try.

ghost use Rattle.std.specs.Prelude.{◌≡◌, IsSome};

use crate::reason::Reason;
use crate::session::PullSession;
use rtsp_client::{End, Side};

impl PullSession {
    /// The program is to stop at this moment. TEARDOWN is sent on each connection with a session, and its reply is waited for one second.
    pub fn stop(&mut self, now: u64)
        ensures source { self.new.source ≡ self.old.source }
        ensures target { self.new.target ≡ self.old.target }
        ensures mount { self.new.mount ≡ self.old.mount }
    {
        self.leave(Reason::Client(End::Stopped), now);
    }

    /// A server has closed its connection at this moment, or it was lost. Frames that came before are still sent to the target.
    pub fn lose(&mut self, side: Side, end: End, now: u64)
        ensures source { self.new.source.waiting ≡ self.old.source.waiting }
        ensures target { self.new.target.waiting ≡ self.old.target.waiting }
        ensures mount { self.new.mount ≡ self.old.mount }
    {
        match side {
            Side::Source => self.lose_source(end, now),
            Side::Target => {
                self.target_line.is_closed = true;
                self.leave(Reason::Client(end), now);
            }
        }
    }

    /// The source has closed its connection at this moment, or it was lost. After a redirect the old connection doesn't matter any more.
    fn lose_source(&mut self, end: End, now: u64)
        ensures source { self.new.source.waiting ≡ self.old.source.waiting }
        ensures target { self.new.target ≡ self.old.target }
        ensures mount { self.new.mount ≡ self.old.mount }
    {
        if self.next_place.is_some() || self.source_line.is_closed {
            return;
        }
        self.source_line.is_closed = true;
        if self.source_line.reader.missing().is_some() {
            self.client.cut_frame();
        }
        self.leave(Reason::Client(end), now);
    }

    /// The try ends for this reason, if it has none yet, and sessions that are open are closed.
    pub(crate) fn leave(&mut self, reason: Reason, now: u64)
        ensures source { self.new.source ≡ self.old.source }
        ensures target { self.new.target ≡ self.old.target }
        ensures mount { self.new.mount ≡ self.old.mount }
    {
        self.give_reason(reason);
        self.watch.closes(now);
        let _ = self.client.stops();
    }

    /// The try ends at once for this reason, if it has none yet.
    pub(crate) fn fail(&mut self, reason: Reason, side: Side)
        ensures ends { IsSome self.new.client.end }
        ensures client { self.new.client ≡ record self.old.client { end = self.new.client.end } }
        ensures source { self.new.source ≡ self.old.source }
        ensures target { self.new.target ≡ self.old.target }
        ensures watch { self.new.watch ≡ self.old.watch }
        ensures mount { self.new.mount ≡ self.old.mount }
    {
        self.give_reason(reason);
        self.client.ended(End::ConnectionLost { side });
    }

    /// The try ends for this reason, if it has none yet.
    pub(crate) fn give_reason(&mut self, reason: Reason)
        ensures { self.new ≡ self.old }
    {
        if self.reason().is_none() {
            self.reason = Some(reason);
        }
    }
}
