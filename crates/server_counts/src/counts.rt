//! The counts of a server.
ghost use Rattle.std.specs.Prelude.{◌≡◌, map};
ghost use Rattle.server_counts.specs.Statuses.{refused_statuses};

use crate::figures::{RefusedConnections, RequestCount, ServerFigures, SessionFigures};
use crate::refusal::Refusal;
use crate::session_role::SessionRole;
use crate::statuses::{STATUSES, place_of};
use crate::thread_mark::ThreadMark;
use rtsp_message::Status;
use std::array;
use std::sync::atomic::{AtomicU64, Ordering};

/// What a server counts since it was started, and what it has now. Each number is changed and read by itself.
#[derive(Drop)]
pub struct ServerCounts {
    connections: AtomicU64,
    full: AtomicU64,
    address_full: AtomicU64,
    out_of_memory: AtomicU64,
    no_thread: AtomicU64,
    not_accepted: AtomicU64,
    publisher_ready: AtomicU64,
    publisher_recording: AtomicU64,
    player_ready: AtomicU64,
    player_playing: AtomicU64,
    /// Refused requests, at the places of their statuses.
    requests: [AtomicU64; STATUSES],
    lines_dropped: AtomicU64,
    /// The mark of the thread that accepts.
    pub accepting: ThreadMark,
    /// The mark of the thread that closes refused connections.
    pub refusing: ThreadMark,
    /// The mark of the thread that reports.
    pub reporting: ThreadMark,
}

impl ServerCounts {
    /// Nothing has come.
    pub fn new() -> ServerCounts {
        ServerCounts {
            connections: AtomicU64::new(0),
            full: AtomicU64::new(0),
            address_full: AtomicU64::new(0),
            out_of_memory: AtomicU64::new(0),
            no_thread: AtomicU64::new(0),
            not_accepted: AtomicU64::new(0),
            publisher_ready: AtomicU64::new(0),
            publisher_recording: AtomicU64::new(0),
            player_ready: AtomicU64::new(0),
            player_playing: AtomicU64::new(0),
            requests: array::from_fn(|_| AtomicU64::new(0)),
            lines_dropped: AtomicU64::new(0),
            accepting: ThreadMark::new(),
            refusing: ThreadMark::new(),
            reporting: ThreadMark::new(),
        }
    }

    /// A connection is served from now on.
    pub fn begin_connection(&self) {
        add(&self.connections, 1);
    }

    /// A connection that was served has ended.
    pub fn end_connection(&self) {
        self.connections.fetch_sub(1, Ordering::SeqCst);
    }

    /// A connection isn't served for this reason.
    pub fn refuse(&self, why: Refusal) {
        let count = match why {
            Refusal::Full => &self.full,
            Refusal::AddressFull => &self.address_full,
            Refusal::OutOfMemory => &self.out_of_memory,
            Refusal::NoThread => &self.no_thread,
            Refusal::NotAccepted => &self.not_accepted,
        };
        add(count, 1);
    }

    /// A connection's session goes from one role and state to another. `None` is no session.
    pub fn move_session(&self, from: Option<SessionRole>, to: Option<SessionRole>) {
        if from == to {
            return;
        }
        if let Some(to) = to {
            add(self.sessions(to), 1);
        }
        if let Some(from) = from {
            self.sessions(from).fetch_sub(1, Ordering::SeqCst);
        }
    }

    /// A request is refused with this status.
    pub fn refuse_request(&self, status: Status) {
        if let Some(place) = place_of(status) {
            add(&self.requests[place], 1);
        }
    }

    /// `count` log lines are dropped.
    pub fn drop_lines(&self, count: u64) {
        add(&self.lines_dropped, count);
    }

    /// Returns the figures at this moment.
    pub fn figures(&self) -> ServerFigures
        ensures { map (λ count. count.status) result.requests ≡ refused_statuses }
    {
        ServerFigures {
            connections: read(&self.connections),
            refused: RefusedConnections {
                full: read(&self.full),
                address_full: read(&self.address_full),
                out_of_memory: read(&self.out_of_memory),
                no_thread: read(&self.no_thread),
                not_accepted: read(&self.not_accepted),
            },
            sessions: SessionFigures {
                publisher_ready: read(&self.publisher_ready),
                publisher_recording: read(&self.publisher_recording),
                player_ready: read(&self.player_ready),
                player_playing: read(&self.player_playing),
            },
            requests: self.requests(),
            lines_dropped: read(&self.lines_dropped),
        }
    }

    /// Returns how many requests were refused with each status.
    fn requests(&self) -> [RequestCount; STATUSES]
        ensures { map (λ count. count.status) result ≡ refused_statuses }
    {
        [
            self.refused_with(Status::BadRequest),
            self.refused_with(Status::Forbidden),
            self.refused_with(Status::NotFound),
            self.refused_with(Status::NotAcceptable),
            self.refused_with(Status::RequestEntityTooLarge),
            self.refused_with(Status::UnsupportedMediaType),
            self.refused_with(Status::ParameterNotUnderstood),
            self.refused_with(Status::NotEnoughBandwidth),
            self.refused_with(Status::SessionNotFound),
            self.refused_with(Status::MethodNotValidInThisState),
            self.refused_with(Status::AggregateOperationNotAllowed),
            self.refused_with(Status::OnlyAggregateOperationAllowed),
            self.refused_with(Status::UnsupportedTransport),
            self.refused_with(Status::NotImplemented),
            self.refused_with(Status::ServiceUnavailable),
            self.refused_with(Status::VersionNotSupported),
            self.refused_with(Status::OptionNotSupported),
        ]
    }

    /// Returns how many requests were refused with a status.
    fn refused_with(&self, status: Status) -> RequestCount
        ensures { result.status ≡ status }
    {
        let count = match place_of(status) {
            Some(place) => read(&self.requests[place]),
            None => 0,
        };
        RequestCount { status, count }
    }

    /// How many sessions have this role and state.
    fn sessions(&self, role: SessionRole) -> &AtomicU64 {
        match role {
            SessionRole::PublisherReady => &self.publisher_ready,
            SessionRole::PublisherRecording => &self.publisher_recording,
            SessionRole::PlayerReady => &self.player_ready,
            SessionRole::PlayerPlaying => &self.player_playing,
        }
    }
}

/// Adds to a count.
fn add(count: &AtomicU64, more: u64) {
    count.fetch_add(more, Ordering::SeqCst);
}

/// Reads a count.
fn read(count: &AtomicU64) -> u64 {
    count.load(Ordering::SeqCst)
}
