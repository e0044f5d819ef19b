//! Requests that are refused before the book is asked, and what the connection's silence is measured by.
use crate::serving::Connection;
use admission::Gate;
use interleaved::Sink;
use relay_fanout::Maker;
use rtsp_message::{Request, Status};
use session_state::{Moments, Words, sound_method};
use sockets::HangUp;
use std::sync::Wait;
use std::thread::Threads;
use std::time::Clock;

impl<R, M, V, G, W, H, N> Connection<R, M, V, G, W, H, N>
where
    R: Threads + Wait + Clock + Copy + Send + 'static,
    M: Maker + Drop,
    M::Out: 'static,
    V: Words + Drop,
    G: Gate + Drop,
    W: Sink + Drop + Send + 'static,
    H: HangUp + Drop + Send + Sync + 'static,
    N: Moments + Drop,
{
    /// How a request is refused by the address of its peer, if it is. The checks that look at nothing but the request come first:
    /// what they refuse the book is asked. The refused request is in no history.
    pub(crate) fn barred(&mut self, request: &Request) -> Option<Status> {
        if self.rights.are_all() {
            return None;
        }
        match sound_method(self.alloc, request) {
            Ok(Some(method)) => self
                .rights
                .refuses(&self.rt, method, self.publishing.is_some()),
            Ok(None) => None,
            Err(_) => Some(Status::ServiceUnavailable),
        }
    }

    /// Notes how the session is after an answer.
    pub(crate) fn note_session(&mut self) {
        let is_recording = match &self.session {
            Some(session) => session.is_recording,
            None => false,
        };
        let has_mount = self.publishing.is_some();
        let is_announced = has_mount && self.session.is_none();
        self.clock.watch().note_session(is_recording, is_announced);
        if !has_mount {
            self.rights.leave_mount(&self.rt);
        }
    }
}
