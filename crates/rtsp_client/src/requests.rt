//! The requests of a connection, of which one at a time waits for its reply.
ghost use Rattle.std.specs.Prelude.{◌≡◌, ◌+◌, ◌<◌, Some, None, IfNone, IfSome};
ghost use Rattle.rtsp_client.specs.Requests.{IsLate, IsOnTime, IsReply, asked_now, none_asked, without_request};

use crate::asked::{Asked, Late};
use crate::limits::REPLY_WAIT;
use crate::status_class::StatusClass;
use crate::verdict::Verdict;

/// What a reply is.
#[derive(Clone, Copy, Debug, PartialEq, Eq, Drop)]
pub enum Reply {
    /// That of the request that waits: it has its number or none.
    Of { asked: Asked, verdict: Verdict },
    /// That of another request, or nothing was asked for: it is passed over.
    Other,
}

/// The request that waits for its reply.
#[derive(Clone, Copy, Debug, PartialEq, Eq, Drop)]
pub struct Outstanding {
    pub asked: Asked,
    /// Its number (RFC 2326, 12.17).
    pub number: u32,
    /// When it was sent, in milliseconds.
    pub sent: u64,
}

/// The requests of a connection: which one waits for its reply, and the number of the next one. A number is used once.
#[derive(Clone, Copy, Debug, PartialEq, Eq, Drop)]
pub struct Requests {
    pub(crate) next: u32,
    pub(crate) outstanding: Option<Outstanding>,
}

impl Requests {
    /// Nothing was asked for yet.
    pub fn new() -> Requests
        ensures { result ≡ none_asked }
    {
        Requests {
            next: 1,
            outstanding: None,
        }
    }

    /// Returns the request that waits for its reply.
    pub fn outstanding(&self) -> Option<Outstanding>
        ensures { result ≡ self.now.outstanding }
    {
        self.outstanding
    }

    /// Returns the number of a request that is sent at this moment, in milliseconds. `None` if another one waits for its reply, or if the
    /// numbers are used up.
    pub fn ask(&mut self, asked: Asked, now: u64) -> Option<u32>
        ensures number { IfSome result (λ number. number ≡ self.old.next) }
        ensures alone { IfSome result (λ number. self.old.outstanding ≡ None) }
        ensures waits { IfSome result (λ number. self.new ≡ asked_now self.old asked now) }
        ensures free { self.old.outstanding ≡ None → self.old.next < 4_294_967_295 → result ≡ Some self.old.next }
        ensures none { IfNone result (self.new ≡ self.old) }
    {
        if self.outstanding.is_some() {
            return None;
        }
        let number = self.next;
        self.next = number.checked_add(1)?;
        self.outstanding = Some(Outstanding {
            asked,
            number,
            sent: now,
        });
        Some(number)
    }

    /// Returns what a reply with this status is, by its number or if it has none. If it is that of the request that waits, that waits no
    /// longer, unless the reply is provisional.
    pub fn replied(&mut self, number: Option<u32>, status: u16) -> Reply
        ensures is { IsReply self.old.outstanding number status result }
        ensures done { self.new ≡ without_request self.old result }
    {
        let Some(waiting) = self.outstanding else {
            return Reply::Other;
        };
        if number.is_some_and(|number| number != waiting.number) {
            return Reply::Other;
        }
        let verdict = Verdict::of(waiting.asked, StatusClass::of(status));
        if verdict != Verdict::Waits {
            self.outstanding = None;
        }
        Reply::Of {
            asked: waiting.asked,
            verdict,
        }
    }

    /// Returns what was asked for ten seconds ago or more, at this moment in milliseconds, and has no reply yet, and what that means. It waits
    /// no longer: a reply that still comes is passed over.
    pub fn late(&mut self, now: u64) -> Option<(Asked, Late)>
        ensures some { IfSome result (λ it. IsLate self.old.outstanding now it.0 it.1) }
        ensures none { IfNone result (IsOnTime self.old.outstanding now) }
        ensures done { IfSome result (λ it. self.new ≡ record self.old { outstanding = None }) }
        ensures same { IfNone result (self.new ≡ self.old) }
    {
        let waiting = self.outstanding?;
        if now.saturating_sub(waiting.sent) < REPLY_WAIT {
            return None;
        }
        self.outstanding = None;
        Some((waiting.asked, waiting.asked.late()))
    }
}
