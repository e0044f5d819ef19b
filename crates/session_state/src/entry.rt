//! What a history has entries of.

use crate::act::Act;
use crate::given::Given;
use rtsp_message::{Reply, Request};

/// One thing that has happened.
#[derive(Drop)]
pub enum Entry {
    /// A connection was opened, and got this number.
    Connect(u64),
    /// A connection made a request, and was answered.
    Request {
        conn: u64,
        request: Request,
        given: Given,
        reply: Reply,
        act: Act,
    },
    /// A connection was closed.
    HangUp {
        conn: u64,
        act: Act,
    },
    /// A seat of a mount was given back.
    Back {
        mount: u64,
        seat: usize,
    },
    /// A connection's session had expired at the moment `now`; `heard` is a moment at which the connection was last heard
    /// otherwise than by a request. Moments are milliseconds.
    Expire {
        conn: u64,
        heard: u64,
        now: u64,
        act: Act,
    },
}
