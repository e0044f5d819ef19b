//! The whole client, as one value.
ghost use Rattle.std.specs.Prelude.{◌≡◌, ◌<◌, ◌↔◌, IsTrue};
ghost use Rattle.std.specs.Option.{option_copied};
ghost use Rattle.rtsp_client.specs.Clients.{connection_of, kept_track, new_client, session_at, status_for};
ghost use Rattle.transport_header.specs.Tracks.{pair_at};

use crate::asked::Side;
use crate::awaits::Awaits;
use crate::connection::Connection;
use crate::end::End;
use crate::frame_account::FrameAccount;
use crate::passage::Passage;
use crate::progress::Progress;
use crate::redirects::Redirects;
use sequence_counts::TrackCounts;
use std::marker::Model;
use transport_header::ChannelPair;

/// A client that fetches a stream from a source and gives it to a target (RFC 2326, A.1). A program carries out what it says:
///
/// - after each call that returns a `Turn`, it does what that says;
/// - it sends what `next` returns until that is `None`, after each such call and at least each 100 ms;
/// - it gives each reply to `replied` and each frame of the source to `frame`, and calls `ticks` at least once a second.
///
/// Moments are milliseconds of one clock that doesn't go back.
#[derive(Drop)]
pub struct Client {
    pub(crate) progress: Progress,
    pub(crate) awaits: Awaits,
    pub(crate) redirects: Redirects,
    pub(crate) has_get_parameter: bool,
    pub(crate) is_stopping: bool,
    pub(crate) end: Option<End>,
    pub(crate) source: Connection,
    pub(crate) target: Connection,
    pub(crate) passage: Passage,
}

impl Model for Client {
    ghost use Rattle.rtsp_client.specs.Clients.{State};

    ghost Value = { State };

    ghost view = { λ c. record {
      place = c.progress;
      awaits = c.awaits;
      redirects = c.redirects;
      has_get_parameter = c.has_get_parameter;
      is_stopping = c.is_stopping;
      end = c.end;
      source = c.source;
      target = c.target;
      passage = c.passage;
    } };
}

impl Client {
    /// Both connections are open, and nothing was sent on them.
    pub fn new() -> Client
        ensures { result ≡ new_client }
    {
        Client {
            progress: Progress::new(),
            awaits: Awaits::Nothing,
            redirects: Redirects::new(),
            has_get_parameter: false,
            is_stopping: false,
            end: None,
            source: Connection::new(),
            target: Connection::new(),
            passage: Passage::new(),
        }
    }

    /// Returns why the client has ended, if it has. Nothing is sent any more then.
    pub fn end(&self) -> Option<End>
        ensures { result ≡ self.now.end }
    {
        self.end
    }

    /// Returns the connection to a side.
    pub(crate) fn connection(&self, side: Side) -> &Connection
        ensures { result.now ≡ connection_of side self.now }
    {
        match side {
            Side::Source => &self.source,
            Side::Target => &self.target,
        }
    }

    /// Returns the identifier of a side's session, once it is open (RFC 2326, 12.37).
    pub fn session(&self, side: Side) -> Option<&[u8]>
        ensures { option_copied result ≡ session_at side self.now }
    {
        match &self.connection(side).session {
            Some(id) => Some(id.as_slice()),
            None => None,
        }
    }

    /// Returns how many tracks the source has set up, at most 16.
    pub fn kept(&self) -> usize
        ensures { result ≡ self.now.place.kept }
    {
        self.progress.kept()
    }

    /// Returns which track of the source has this place among those that are set up.
    pub fn track_at(&self, place: usize) -> Option<usize>
        ensures { result ≡ kept_track self.now place }
    {
        if place < self.progress.kept() {
            self.passage.tracks.get(place).copied()
        } else {
            None
        }
    }

    /// Returns the channels of the source's connection that the track at this place among those that are set up has.
    pub fn channels(&self, place: usize) -> Option<ChannelPair>
        ensures { result ≡ pair_at self.now.passage.map.source place }
    {
        self.passage.map.source.pair_of(place)
    }

    /// Returns what became of the frames that came.
    pub fn account(&self) -> &FrameAccount
        ensures { result.now ≡ self.now.passage.account }
    {
        &self.passage.account
    }

    /// Returns how many packets of each track are missing or late, by the track's place among those that are set up.
    pub fn counts(&self) -> &TrackCounts
        ensures { result.now ≡ self.now.passage.counts }
    {
        &self.passage.counts
    }

    /// Returns whether the program reads from the source: fewer than 4,096 frames wait for the target.
    pub fn may_read(&self) -> bool
        ensures { IsTrue result ↔ (self.now.passage.account.unsent < 4096) }
    {
        self.passage.has_room()
    }

    /// Returns the status of the reply to a request that a server sends on its connection: OPTIONS is known, and nothing else (RFC 2326, 10.1).
    pub fn asks(&self, is_options: bool) -> u16
        ensures { result ≡ status_for is_options }
    {
        if is_options { 200 } else { 501 }
    }
}
