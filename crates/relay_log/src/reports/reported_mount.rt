//! The mounts of reports.
ghost use Rattle.std.specs.Prelude.{◌≡◌, ◌-◌, ◌<◌, false, IfOk, IfNone, IfSome, IsSome};
ghost use Rattle.std.specs.Arc.{arc_value};
ghost use Rattle.relay_accounts.specs.Reporting.{nothing_published};

use crate::reports::shown_tracks::copies_of_tracks;
use crate::reports::told::Told;
use base_syntax::Bytes;
use mount_signals::MountSignal;
use relay_accounts::MountTally;
use status::{MountStatus, TrackStatus};
use std::alloc::{AllocError, Global};
use std::net::SocketAddr;
use std::sync::{Arc, Wait};

/// A mount that is to be reported.
#[derive(Drop)]
pub(crate) struct ReportedMount<'a> {
    pub(crate) number: u64,
    pub(crate) name: &'a [u8],
    pub(crate) publisher: SocketAddr,
    /// The tracks of its description.
    pub(crate) tracks: Vec<TrackStatus>,
    pub(crate) signal: &'a Arc<MountSignal, Global>,
}

/// A mount that is recorded, or has ended since its last report.
pub(super) struct Mount {
    pub(super) conn: u64,
    pub(super) number: u64,
    pub(super) name: Bytes,
    pub(super) publisher: SocketAddr,
    pub(super) tracks: Vec<TrackStatus>,
    pub(super) signal: Arc<MountSignal, Global>,
    pub(super) told: MountTally,
    /// When it was first recorded, in milliseconds.
    pub(super) began: u64,
    pub(super) has_ended: bool,
}

impl Drop for Mount {
    fn drop(self) {
        let Mount {
            conn: _,
            number: _,
            name: _,
            publisher: _,
            tracks: _,
            signal: _,
            told: _,
            began: _,
            has_ended: _,
        } = self;
    }
}

impl Mount {
    /// A connection's mount, which is recorded from this moment on, in milliseconds, and of which nothing was reported.
    pub(super) fn new(
        alloc: Global,
        conn: u64,
        began: u64,
        mount: ReportedMount<'_>,
    ) -> Result<Mount, AllocError>
        ensures conn { IfOk result (λ made. made.conn ≡ conn) }
        ensures number { IfOk result (λ made. made.number ≡ mount.entry.number) }
        ensures name { IfOk result (λ made. made.name ≡ mount.entry.name.now) }
        ensures publisher { IfOk result (λ made. made.publisher ≡ mount.entry.publisher) }
        ensures tracks { IfOk result (λ made. made.tracks.items ≡ mount.entry.tracks.items) }
        ensures signal { IfOk result (λ made. arc_value made.signal ≡ arc_value mount.entry.signal.now) }
        ensures nothing_told { IfOk result (λ made. made.told ≡ nothing_published) }
        ensures began { IfOk result (λ made. made.began ≡ began) }
        ensures goes_on { IfOk result (λ made. made.has_ended ≡ false) }
    {
        let ReportedMount {
            number,
            name,
            publisher,
            tracks,
            signal,
        } = mount;
        Ok(Mount {
            conn,
            number,
            name: Bytes::from_slice(alloc, name)?,
            publisher,
            tracks,
            signal: Arc::try_clone(signal)?,
            told: MountTally::new(),
            began,
            has_ended: false,
        })
    }

    /// Returns its figures at this moment, with `players` players.
    pub(super) fn status(
        &self,
        rt: &impl Wait,
        alloc: Global,
        players: usize,
        now: u64,
    ) -> Result<MountStatus, AllocError>
        ensures name { IfOk result (λ status. status.name ≡ self.now.name) }
        ensures publisher { IfOk result (λ status. status.publisher ≡ self.now.publisher) }
        ensures tracks { IfOk result (λ status. status.tracks.items ≡ self.now.tracks.items) }
        ensures players { IfOk result (λ status. status.players ≡ players) }
        ensures age { IfOk result (λ status. status.age ≡ now - self.now.began) }
        ensures has_ended { IfOk result (λ status. status.has_ended ≡ self.now.has_ended) }
    {
        Ok(MountStatus {
            name: Bytes::from_slice(alloc, self.name.as_slice())?,
            publisher: self.publisher,
            tracks: copies_of_tracks(alloc, self.tracks.as_slice())?,
            players,
            tally: self.signal.tally(rt),
            silence: now.saturating_sub(self.signal.last_packet(rt)),
            age: now.saturating_sub(self.began),
            has_ended: self.has_ended,
        })
    }

    /// Returns what came since its last line, if it has a line in this report: it goes on or something came, and there is room.
    /// That is then reported; what finds no room is in the next report.
    pub(super) fn tell(&mut self, status: &MountStatus, told: &mut Told) -> Option<MountTally>
        ensures left_out { IfNone result (self.new ≡ self.old) }
        ensures room { IfSome result (λ since. told.old.lines < 100) }
        ensures reported { IfSome result (λ since. self.new ≡ record self.old { told = status.now.tally }) }
        ensures goes_on { self.old.has_ended ≡ false → told.old.lines < 100 → IsSome result }
    {
        let since = status.tally.since(&self.told);
        let has_line = !self.has_ended || !since.is_nothing();
        if !has_line || !told.has_room() {
            return None;
        }
        self.told = status.tally;
        Some(since)
    }
}
