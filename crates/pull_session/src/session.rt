//! One try of a pull, as one value.
ghost use Rattle.std.specs.Prelude.{◌≡◌, ◌<◌, length, IsTrue, is_some, true, false};
ghost use Rattle.outgoing.specs.Queues.{bytes_waiting};
ghost use Rattle.pull_session.specs.Tries.{line_of};

use crate::line::Line;
use crate::login::Login;
use crate::note::Notes;
use crate::offer::Offer;
use crate::options::PullOptions;
use crate::reason::Reason;
use crate::watch::Watch;
use base_syntax::Bytes;
use rtsp_auth::Credentials;
use rtsp_client::{Asked, Client, FrameAccount, Side};
use sequence_counts::TrackCounts;
use source_urls::{Source, Target};
use std::alloc::Global;
use std::marker::Model;

/// A try of a pull, from two new connections to its end (RFC 2326, A.1). A program gives it the bytes that come, writes the bytes that wait,
/// and calls `advance` after that and at least each 100 ms. Moments are milliseconds of one clock that doesn't go back.
#[derive(Drop)]
pub struct PullSession {
    pub(crate) alloc: Global,
    pub(crate) client: Client,
    /// Where the source is: after a redirect the new place.
    pub(crate) place: Source,
    /// The place that a redirect names, until there is a connection to it.
    pub(crate) next_place: Option<Source>,
    pub(crate) target: Target,
    pub(crate) options: PullOptions,
    pub(crate) login: Login,
    pub(crate) offer: Option<Offer>,
    pub(crate) source_line: Line,
    pub(crate) target_line: Line,
    pub(crate) watch: Watch,
    /// What the source was asked for last.
    pub(crate) last_asked: Option<Asked>,
    pub(crate) reason: Option<Reason>,
    pub(crate) notes: Notes,
}

impl Model for PullSession {
    ghost use Rattle.pull_session.specs.Tries.{Try};

    ghost Value = { Try };

    ghost view = { λ s. record {
      client = s.client;
      mount = s.target.uri;
      source = s.source_line;
      target = s.target_line;
      watch = s.watch;
    } };
}

impl PullSession {
    /// Both connections are open, and nothing was sent. `cnonce` is drawn for this try (RFC 7616, 3.4).
    pub fn new(
        alloc: Global,
        source: Source,
        target: Target,
        credentials: Option<Credentials>,
        cnonce: Bytes,
        options: PullOptions,
    ) -> PullSession {
        PullSession {
            alloc,
            client: Client::new(),
            place: source,
            next_place: None,
            target,
            options,
            login: Login::new(credentials, cnonce),
            offer: None,
            source_line: Line::new(alloc),
            target_line: Line::new(alloc),
            watch: Watch::new(),
            last_asked: None,
            reason: None,
            notes: Notes::new(alloc),
        }
    }

    /// Returns why the try ends, once that is known. It may still be closing.
    pub fn reason(&self) -> Option<Reason> {
        match (self.reason, self.client.end()) {
            (Some(reason), _) => Some(reason),
            (None, Some(end)) => Some(Reason::Client(end)),
            (None, None) => None,
        }
    }

    /// Returns whether the try is over at this moment: both connections can be closed.
    pub fn is_over(&self, now: u64) -> bool {
        if self.client.end().is_some() || self.watch.is_closed(now) {
            return true;
        }
        self.watch.is_closing() && self.is_left(Side::Source) && self.is_left(Side::Target)
    }

    /// Returns whether nothing is to be said to a side any more.
    fn is_left(&self, side: Side) -> bool {
        if self.line(side).is_closed {
            return true;
        }
        self.client.session(side).is_none() && self.line(side).waiting.waiting().is_empty()
    }

    /// Returns whether bytes of the source are to be read: fewer than 262,144 bytes and fewer than 4,096 frames wait for the target, or the
    /// try is closing, and no frame is put any more.
    pub fn may_read_source(&self) -> bool
        ensures few { IsTrue result → is_some self.now.watch.closes_at ≡ false → (length (bytes_waiting self.now.target.waiting) < 262_144) × (self.now.client.passage.account.unsent < 4_096) }
        ensures reads { length (bytes_waiting self.now.target.waiting) < 262_144 → self.now.client.passage.account.unsent < 4_096 → IsTrue result }
        ensures closing { is_some self.now.watch.closes_at ≡ true → IsTrue result }
    {
        self.watch.is_closing() || (!self.target_line.waiting.is_full() && self.client.may_read())
    }

    /// Returns the bytes that are to be written to a side.
    pub fn waiting(&self, side: Side) -> &[u8]
        ensures { result.now ≡ bytes_waiting (line_of side self.now).waiting }
    {
        self.line(side).waiting.waiting()
    }

    /// Returns the place to which the source's connection is to be made anew, if it is.
    pub fn redirect(&self) -> Option<&Source> {
        self.next_place.as_ref()
    }

    /// Returns what became of the frames that came.
    pub fn account(&self) -> &FrameAccount {
        self.client.account()
    }

    /// Returns how many packets of each track are missing or late, by the track's place among those that go on.
    pub fn counts(&self) -> &TrackCounts {
        self.client.counts()
    }

    /// Returns what is to be logged.
    pub fn notes(&self) -> &Notes {
        &self.notes
    }

    /// Drops the notes: the program has logged them.
    pub fn clear_notes(&mut self) {
        self.notes.clear();
    }

    /// Returns the connection to a side.
    pub(crate) fn line(&self, side: Side) -> &Line
        ensures { result.now ≡ line_of side self.now }
    {
        match side {
            Side::Source => &self.source_line,
            Side::Target => &self.target_line,
        }
    }
}
