//! A client that stops (RFC 2326, 10.7).
ghost use Rattle.std.specs.Prelude.{◌≡◌};
ghost use Rattle.rtsp_client.specs.Stopping.{EndsIfClosed, IsClosed, IsTornDown, Stops, with_closed};

use crate::asked::Side;
use crate::client::Client;
use crate::end::End;
use crate::turn::Turn;
use crate::verdict::Verdict;

impl Client {
    /// The program is to stop: it sends no more frames, and TEARDOWN ends each session that is open, after the reply that its side waits
    /// for. The client ends when none is open.
    pub fn stops(&mut self) -> Turn
        ensures { Stops self.old self.new result }
    {
        if self.end.is_some() {
            return Turn::GoesOn;
        }
        self.is_stopping = true;
        self.ends_if_closed()
    }

    /// Takes the reply to TEARDOWN.
    pub(crate) fn torn_down(&mut self, side: Side, verdict: Verdict) -> Turn
        ensures { IsTornDown verdict side self.old self.new result }
    {
        match verdict {
            Verdict::Over => self.closes(side),
            _ => Turn::GoesOn,
        }
    }

    /// A side's session is over.
    pub(crate) fn closes(&mut self, side: Side) -> Turn
        ensures { IsClosed side self.old self.new result }
    {
        self.close(side);
        self.ends_if_closed()
    }

    /// Closes a side's session.
    fn close(&mut self, side: Side)
        ensures { self.new ≡ with_closed side self.old }
    {
        match side {
            Side::Source => self.source.close(),
            Side::Target => self.target.close(),
        }
    }

    /// The client ends if no session is open.
    fn ends_if_closed(&mut self) -> Turn
        ensures { EndsIfClosed self.old self.new result }
    {
        if self.source.is_open() || self.target.is_open() {
            return Turn::GoesOn;
        }
        self.ends(End::Stopped)
    }
}
