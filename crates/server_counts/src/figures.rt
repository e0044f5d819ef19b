//! The figures of a server, as values.
use crate::statuses::STATUSES;
use rtsp_message::Status;

/// What a server has counted since it was started, and what it has now.
#[derive(Clone, Copy, Debug, PartialEq, Eq, Drop)]
pub struct ServerFigures {
    /// How many connections are served now.
    pub connections: u64,
    /// How many weren't served.
    pub refused: RefusedConnections,
    /// How many sessions there are now.
    pub sessions: SessionFigures,
    /// How many requests were refused with each status that refuses, in the order of the codes.
    pub requests: [RequestCount; STATUSES],
    /// How many log lines were dropped: nobody read the ones before them, or there was no memory.
    pub lines_dropped: u64,
}

/// How many connections weren't served, by the reason.
#[derive(Clone, Copy, Debug, PartialEq, Eq, Drop)]
pub struct RefusedConnections {
    /// The server had as many as it may have.
    pub full: u64,
    /// The address had as many as it may have.
    pub address_full: u64,
    pub out_of_memory: u64,
    pub no_thread: u64,
    /// They couldn't be accepted, mostly because there was no descriptor.
    pub not_accepted: u64,
}

/// How many sessions there are, by role and state (RFC 2326, A.2).
#[derive(Clone, Copy, Debug, PartialEq, Eq, Drop)]
pub struct SessionFigures {
    pub publisher_ready: u64,
    pub publisher_recording: u64,
    pub player_ready: u64,
    pub player_playing: u64,
}

/// How many requests were refused with a status.
#[derive(Clone, Copy, Debug, PartialEq, Eq, Drop)]
pub struct RequestCount {
    pub status: Status,
    pub count: u64,
}
