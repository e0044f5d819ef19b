//! What a connection has while it is served.
ghost use Rattle.std.specs.Prelude.{◌≡◌, None};

use crate::accounting::LeftSeat;
use crate::connection_clock::ConnectionClock;
use crate::frame_notes::Publishing;
use crate::session_snapshot::SessionSnapshot;
use crate::shared::Shared;
use admission::Rights;
use interleaved::Sink;
use relay_accounts::{Counts, Part};
use relay_fanout::{Maker, MountFeed, SeatHold, SendSide, Writers};
use relay_log::Events;
use server_counts::SessionRole;
use std::alloc::Global;
use std::sync::Arc;

/// A connection that is being served, by the thread that reads it.
pub(crate) struct Connection<R, M: Maker, V, G, W: Sink, H, N> {
    pub(crate) rt: R,
    pub(crate) alloc: Global,
    pub(crate) shared: Arc<Shared<M, V, G>, Global>,
    pub(crate) player: Arc<SendSide<M::Out, W, H>, Global>,
    /// What sends its frames; `None` if a thread of its own does.
    pub(crate) writers: Option<Arc<Writers<M::Out, W, H>, Global>>,
    pub(crate) conn: u64,
    /// How many requests have passed the gate.
    pub(crate) turns: u64,
    /// The session as the last answer left it.
    pub(crate) session: Option<SessionSnapshot>,
    /// As what it is counted.
    pub(crate) counted: Option<SessionRole>,
    /// Its part in the mount of its last session.
    pub(crate) part: Option<Part>,
    /// Whether that session's account isn't logged yet.
    pub(crate) has_account: bool,
    /// Whether that session expired while it played.
    pub(crate) is_stranded: bool,
    /// From an accepted ANNOUNCE to the mount's end.
    pub(crate) publishing: Option<Publishing<R, MountFeed<R, M::In>>>,
    /// The number of its mount, from the first RECORD on.
    pub(crate) mount: Option<u64>,
    /// From a PLAY that took a seat until the seat is given back.
    pub(crate) frames: Option<SeatHold>,
    /// The seat that was left, while frames of it wait for the socket.
    pub(crate) left: Option<LeftSeat>,
    /// Whether the last packet of the mount was written, and the peer was sent the end for that.
    pub(crate) is_over: bool,
    /// Whether the last request ended the session.
    pub(crate) torn_down: bool,
    pub(crate) counts: Counts,
    pub(crate) events: Events<R>,
    pub(crate) clock: ConnectionClock<N>,
    pub(crate) rights: Rights,
}

impl<R: Drop, M: Maker + Drop, V: Drop, G: Drop, W: Sink + Drop, H: Drop, N: Drop> Drop
    for Connection<R, M, V, G, W, H, N> {
    fn drop(self) {
        let Connection {
            rt: _,
            alloc: _,
            shared: _,
            player: _,
            writers: _,
            conn: _,
            turns: _,
            session: _,
            counted: _,
            part: _,
            has_account: _,
            is_stranded: _,
            publishing: _,
            mount: _,
            frames: _,
            left: _,
            is_over: _,
            torn_down: _,
            counts: _,
            events: _,
            clock: _,
            rights: _,
        } = self;
    }
}

impl<R, M: Maker, V, G, W: Sink, H, N> Connection<R, M, V, G, W, H, N> {
    /// Nothing has come on it.
    pub(crate) fn new(
        rt: R,
        alloc: Global,
        shared: Arc<Shared<M, V, G>, Global>,
        player: Arc<SendSide<M::Out, W, H>, Global>,
        writers: Option<Arc<Writers<M::Out, W, H>, Global>>,
        conn: u64,
        events: Events<R>,
        clock: ConnectionClock<N>,
        rights: Rights,
    ) -> Connection<R, M, V, G, W, H, N> {
        Connection {
            rt,
            alloc,
            shared,
            player,
            writers,
            conn,
            turns: 0,
            session: None,
            counted: None,
            part: None,
            has_account: false,
            is_stranded: false,
            publishing: None,
            mount: None,
            frames: None,
            left: None,
            is_over: false,
            torn_down: false,
            counts: Counts::new(),
            events,
            clock,
            rights,
        }
    }

    /// The connection has no session any more.
    pub(crate) fn forget_session(&mut self)
        ensures { self.new.session ≡ None }
    {
        self.session = None;
        self.count_session();
    }

    /// Counts its session by role and state, in place of what it was counted as before.
    pub(crate) fn count_session(&mut self)
        ensures { self.new.session ≡ self.old.session }
    {
        let role = match &self.session {
            Some(session) => Some(session.role),
            None => None,
        };
        self.shared.counts.move_session(self.counted, role);
        self.counted = role;
    }
}
