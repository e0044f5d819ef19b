//! Replies that don't come.
ghost use Rattle.std.specs.Prelude.{◌≡◌, IfNone, IfSome, None, IsSome};
ghost use Rattle.rtsp_client.specs.Clients.{waiting_at};
ghost use Rattle.rtsp_client.specs.Lateness.{Lacks, Ticks, free_at};
ghost use Rattle.rtsp_client.specs.Runs.{Goes, ticks as ticking};
ghost use Rattle.rtsp_client.specs.Requests.{IsLate, IsOnTime};

use crate::asked::{Asked, Late, Side};
use crate::client::Client;
use crate::end::End;
use crate::turn::Turn;

impl Client {
    /// Time passes to this moment, in milliseconds. If a side's reply hasn't come for ten seconds the client ends, or if it is that of a
    /// request that keeps the session alive, OPTIONS does so from then on. A reply that still comes is passed over.
    pub fn ticks(&mut self, side: Side, now: u64) -> Turn
        ensures ended { IsSome self.old.end → (self.new ≡ self.old) × (result ≡ Turn.GoesOn) }
        ensures ticks { self.old.end ≡ None → Ticks side now self.old self.new result }
        ensures goes { self.old.end ≡ None → Goes (ticking side) self.old self.new }
    {
        if self.end.is_some() {
            return Turn::GoesOn;
        }
        self.passes(side, now)
    }

    /// Time passes for a side.
    fn passes(&mut self, side: Side, now: u64) -> Turn
        ensures { Ticks side now self.old self.new result }
    {
        match self.late_at(side, now) {
            Some((asked, late)) => self.is_late(side, asked, late),
            None => Turn::GoesOn,
        }
    }

    /// Returns what a side was asked for ten seconds ago or more, and what that means.
    fn late_at(&mut self, side: Side, now: u64) -> Option<(Asked, Late)>
        ensures some { IfSome result (λ it. IsLate (waiting_at side self.old) now it.0 it.1) }
        ensures none { IfNone result (IsOnTime (waiting_at side self.old) now) }
        ensures done { IfSome result (λ it. self.new ≡ free_at side self.old) }
        ensures same { IfNone result (self.new ≡ self.old) }
    {
        match side {
            Side::Source => self.source.late(now),
            Side::Target => self.target.late(now),
        }
    }

    /// The reply of a side is late.
    fn is_late(&mut self, side: Side, asked: Asked, late: Late) -> Turn
        ensures { Lacks late asked side self.old self.new result }
    {
        match late {
            Late::Ends => self.ends(End::NoReply { asked }),
            Late::UsesOptions => {
                self.use_options(side);
                Turn::GoesOn
            }
            Late::Over => self.closes(side),
        }
    }
}
