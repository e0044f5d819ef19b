//! One of the two connections of a client.
ghost use Rattle.std.specs.Prelude.{◌≡◌, ◌<◌, ◌≤◌, IfNone, IfSome, None, is_some};
ghost use Rattle.rtsp_client.specs.Connections.{asked_on, closed, kept_as, kept_by_options, new_connection, open_fault, opened_on, with_requests, with_sent};
ghost use Rattle.rtsp_client.specs.Keepalives.{is_due};
ghost use Rattle.rtsp_client.specs.Requests.{IsLate, IsOnTime, IsReply, without_request};

use crate::asked::{Asked, Late, Side};
use crate::keepalive::Keepalive;
use crate::opened::{Opened, SessionFault};
use crate::requests::{Reply, Requests};
use base_syntax::Bytes;

/// A connection to a server: its requests, and the session on it.
#[derive(Drop)]
pub struct Connection {
    pub(crate) requests: Requests,
    /// The session's identifier, once it is open.
    pub(crate) session: Option<Bytes>,
    /// When the session is kept alive, once it is open.
    pub(crate) keepalive: Option<Keepalive>,
}

impl Connection {
    /// Nothing was asked for.
    pub(crate) fn new() -> Connection
        ensures { result ≡ new_connection }
    {
        Connection {
            requests: Requests::new(),
            session: None,
            keepalive: None,
        }
    }

    /// Returns whether a request waits for its reply.
    pub(crate) fn is_waiting(&self) -> bool
        ensures { result ≡ is_some self.now.requests.outstanding }
    {
        self.requests.outstanding().is_some()
    }

    /// Returns whether the session is open.
    pub(crate) fn is_open(&self) -> bool
        ensures { result ≡ is_some self.now.session }
    {
        self.session.is_some()
    }

    /// The session is over.
    pub(crate) fn close(&mut self)
        ensures { self.new ≡ closed self.old }
    {
        self.session = None;
        self.keepalive = None;
    }

    /// Returns whether the session is to be kept alive by a request at this moment, in milliseconds.
    pub(crate) fn is_due(&self, now: u64) -> bool
        ensures { result ≡ is_due self.now.keepalive now }
    {
        match self.keepalive {
            Some(keepalive) => keepalive.due() <= now,
            None => false,
        }
    }

    /// Returns the number of a request that is sent at this moment, in milliseconds. `None` if another one waits for its reply, or if the
    /// numbers are used up.
    pub(crate) fn ask(&mut self, asked: Asked, now: u64) -> Option<u32>
        ensures number { IfSome result (λ number. number ≡ self.old.requests.next) }
        ensures alone { IfSome result (λ number. self.old.requests.outstanding ≡ None) }
        ensures asked { IfSome result (λ number. self.new ≡ asked_on self.old asked now) }
        ensures used_up { IfNone result (self.old.requests.outstanding ≡ None → 4_294_967_295 ≤ self.old.requests.next) }
        ensures none { IfNone result (self.new ≡ self.old) }
    {
        let number = self.requests.ask(asked, now)?;
        self.sends(now);
        Some(number)
    }

    /// Something is sent that keeps the session alive.
    pub(crate) fn sends(&mut self, now: u64)
        ensures { self.new ≡ with_sent self.old now }
    {
        if let Some(keepalive) = self.keepalive {
            let mut keepalive = keepalive;
            keepalive.sends(now);
            self.keepalive = Some(keepalive);
        }
    }

    /// From now on OPTIONS keeps the session alive.
    pub(crate) fn use_options(&mut self)
        ensures { self.new ≡ kept_by_options self.old }
    {
        if let Some(keepalive) = self.keepalive {
            let mut keepalive = keepalive;
            keepalive.use_options();
            self.keepalive = Some(keepalive);
        }
    }

    /// Returns what a reply with this number and status is.
    pub(crate) fn replied(&mut self, number: Option<u32>, status: u16) -> Reply
        ensures is { IsReply self.old.requests.outstanding number status result }
        ensures done { self.new ≡ with_requests self.old (without_request self.old.requests result) }
    {
        self.requests.replied(number, status)
    }

    /// Returns what was asked for ten seconds ago or more, and what that means. It waits no longer.
    pub(crate) fn late(&mut self, now: u64) -> Option<(Asked, Late)>
        ensures some { IfSome result (λ it. IsLate self.old.requests.outstanding now it.0 it.1) }
        ensures none { IfNone result (IsOnTime self.old.requests.outstanding now) }
        ensures done { IfSome result (λ it. self.new ≡ with_requests self.old (record self.old.requests { outstanding = None })) }
        ensures same { IfNone result (self.new ≡ self.old) }
    {
        self.requests.late(now)
    }

    /// Opens the session that a reply to SETUP names, unless one is open. Returns why none is open then.
    pub(crate) fn open(
        &mut self,
        session: Result<Opened, SessionFault>,
        side: Side,
        has_get_parameter: bool,
        now: u64,
    ) -> Option<SessionFault>
        ensures fault { result ≡ open_fault self.old.session session }
        ensures opened { self.new ≡ opened_on self.old.session session side has_get_parameter now self.old }
    {
        if self.session.is_some() {
            return None;
        }
        match session {
            Err(fault) => Some(fault),
            Ok(opened) => {
                self.keepalive = Some(keepalive_of(side, opened.timeout, has_get_parameter, now));
                self.session = Some(opened.id);
                None
            }
        }
    }
}

/// Returns when a new session of a side is kept alive.
fn keepalive_of(side: Side, timeout: Option<u32>, has_get_parameter: bool, now: u64) -> Keepalive
    ensures { result ≡ kept_as side timeout has_get_parameter now }
{
    match side {
        Side::Source => Keepalive::new(timeout, has_get_parameter, now),
        Side::Target => Keepalive::of_target(timeout, now),
    }
}
