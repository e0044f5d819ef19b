//! When a session is kept alive, and by which method (RFC 2326, 12.37 and A.1).
ghost use Rattle.std.specs.Prelude.{◌≡◌, ◌+◌, ◌≤◌, ◌↔◌, IsTrue};
ghost use Rattle.rtsp_client.specs.Keepalives.{by_options, due_after, interval_of, of_source, of_target, sent_at};

use crate::limits::{KEEPALIVE_LEAST, KEEPALIVE_MOST, TARGET_INTERVAL, USUAL_TIMEOUT};

/// Returns the milliseconds from one request to the next, for a session that ends after so many seconds without one.
fn interval_for(timeout: Option<u32>) -> u64
    ensures { result ≡ interval_of timeout }
{
    let seconds = match timeout {
        None | Some(0) => USUAL_TIMEOUT,
        Some(seconds) => seconds,
    };
    (u64::from(seconds) * 500).clamp(KEEPALIVE_LEAST, KEEPALIVE_MOST)
}

/// The method that keeps a session alive.
#[derive(Clone, Copy, Debug, PartialEq, Eq, Drop)]
pub enum KeepaliveMethod {
    /// Without a body it does nothing else (10.8).
    GetParameter,
    /// If the server hasn't said that it has GET_PARAMETER, or has once not answered it with success.
    Options,
}

/// When a session is kept alive, and by which method.
#[derive(Clone, Copy, Debug, PartialEq, Eq, Drop)]
pub struct Keepalive {
    /// Milliseconds from one request to the next.
    pub(crate) interval: u64,
    pub(crate) method: KeepaliveMethod,
    /// When the last request of the session was sent, in milliseconds.
    pub(crate) sent: u64,
}

impl Keepalive {
    /// Of a session that its server ends after so many seconds without a request. `None` and 0 are the 60 that RFC 2326 names. Its last
    /// request was sent at this moment, in milliseconds.
    pub fn new(timeout: Option<u32>, has_get_parameter: bool, sent: u64) -> Keepalive
        ensures { result ≡ of_source timeout has_get_parameter sent }
    {
        Keepalive {
            interval: interval_for(timeout),
            method: if has_get_parameter {
                KeepaliveMethod::GetParameter
            } else {
                KeepaliveMethod::Options
            },
            sent,
        }
    }

    /// Of a target's session: a request is sent also if it was sent no frame and no request for 25 seconds.
    pub fn of_target(timeout: Option<u32>, sent: u64) -> Keepalive
        ensures { result ≡ of_target timeout sent }
    {
        Keepalive {
            interval: interval_for(timeout).min(TARGET_INTERVAL),
            method: KeepaliveMethod::Options,
            sent,
        }
    }

    /// Returns the method.
    pub fn method(&self) -> KeepaliveMethod
        ensures { result ≡ self.now.method }
    {
        self.method
    }

    /// A request of the session is sent at this moment, in milliseconds, or a frame to a target.
    pub fn sends(&mut self, now: u64)
        ensures { self.new ≡ sent_at now self.old }
    {
        self.sent = now;
    }

    /// From now on OPTIONS keeps it alive.
    pub fn use_options(&mut self)
        ensures { self.new ≡ by_options self.old }
    {
        self.method = KeepaliveMethod::Options;
    }

    /// Returns when the next request is due, in milliseconds.
    pub fn due(&self) -> u64
        ensures { result ≡ due_after self.now.sent self.now.interval }
    {
        self.sent.saturating_add(self.interval)
    }
}
