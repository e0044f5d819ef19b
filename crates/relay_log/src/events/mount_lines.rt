//! Lines that report a mount as it is announced, recorded and ended.
ghost use Rattle.std.specs.Prelude.{◌≡◌};
ghost use Rattle.relay_log.specs.Tracks.{media_lines};

use crate::events::tracks::count_media;
use crate::events::{Events, path_in};
use crate::reports::{ReportedMount, tracks_of};
use crate::teller::Teller;
use base_syntax::Bytes;
use log::info;
use mount_signals::MountSignal;
use relay_accounts::{Counts, Part};
use rtsp_message::Request;
use status::TrackStatus;
use std::alloc::Global;
use std::sync::{Arc, Wait};
use std::time::{Clock, Instant};

/// The source that lines are logged with.
const TARGET: &str = "relay_server::events";

/// A mount that a connection has announced.
#[derive(Drop)]
pub(super) struct Announced {
    name: Bytes,
    /// When it was first recorded. `None` if it wasn't, or the clock can't be read.
    recorded: Option<Instant>,
    /// The connection's counts when it was announced.
    earlier: Counts,
}

impl<R: Wait + Clock> Events<R> {
    /// An ANNOUNCE of the connection was accepted, when it had these counts.
    pub fn announced(&mut self, rt: &R, alloc: Global, request: &Request, counts: &Counts) {
        let Some(teller) = &self.teller else {
            return;
        };
        let Ok(Some(name)) = path_in(alloc, request) else {
            teller.lines.miss();
            return;
        };
        let peer = teller.peer;
        teller.published.add(rt, teller.conn, name.as_slice(), peer);
        self.tracks = match &teller.reports {
            Some(_) => tracks_of(alloc, request.body.as_slice()).ok(),
            None => None,
        };
        if !teller.is_verbose {
            return;
        }
        let tracks = tracks_in(request);
        let plural = if tracks == 1 { "" } else { "s" };
        info!(teller.lines; target: TARGET, "{peer}: mount {} is announced, {tracks} track{plural}", name.as_slice().escape_ascii());
        self.mount = Some(Announced {
            name,
            recorded: None,
            earlier: *counts,
        });
    }

    /// Its mount of this number, in which it has this part, is recorded for the first time.
    pub fn recorded(
        &mut self,
        rt: &R,
        alloc: Global,
        mount: u64,
        part: &Option<Part>,
        signal: &Arc<MountSignal, Global>,
    ) {
        let Some(teller) = &self.teller else {
            return;
        };
        let tracks = self.tracks.take().unwrap_or(Vec::new(alloc));
        teller.report_mount(rt, alloc, mount, part, tracks, signal);
        let Some(announced) = &mut self.mount else {
            return;
        };
        let peer = teller.peer;
        info!(teller.lines; target: TARGET, "{peer}: mount {} is recorded", announced.name.as_slice().escape_ascii());
        announced.recorded = Instant::now(rt).ok();
    }

    /// Its mount has ended, and it has these counts. Logs those since the ANNOUNCE, and the whole seconds since the first
    /// RECORD.
    pub fn ended(&mut self, rt: &R, counts: &Counts) {
        let Some(teller) = &self.teller else {
            return;
        };
        teller.published.remove(rt, teller.conn);
        if let Some(reports) = &teller.reports {
            reports.mount_ends(rt, teller.conn);
        }
        let Some(mount) = self.mount.take() else {
            return;
        };
        let peer = teller.peer;
        let counts = counts.since(&mount.earlier);
        match mount.seconds(rt) {
            Some(seconds) => {
                info!(teller.lines; target: TARGET, "{peer}: mount {} has ended after {seconds} s: {counts}", mount.name.as_slice().escape_ascii())
            }
            None => {
                info!(teller.lines; target: TARGET, "{peer}: mount {} has ended: {counts}", mount.name.as_slice().escape_ascii())
            }
        }
    }
}

impl<R: Wait> Teller<R> {
    /// Reports have the mount from now on.
    fn report_mount(
        &self,
        rt: &R,
        alloc: Global,
        mount: u64,
        part: &Option<Part>,
        tracks: Vec<TrackStatus>,
        signal: &Arc<MountSignal, Global>,
    ) {
        let Some(reports) = &self.reports else {
            return;
        };
        let Some(part) = part else {
            self.lines.miss();
            return;
        };
        let mount = ReportedMount {
            number: mount,
            name: part.name.as_slice(),
            publisher: self.peer,
            tracks,
            signal,
        };
        if reports.mount_begins(rt, alloc, self.conn, mount).is_err() {
            self.lines.miss();
        }
    }
}

impl Announced {
    /// How many whole seconds have passed since it was first recorded.
    fn seconds<R: Clock>(&self, rt: &R) -> Option<u64> {
        let passed = self.recorded?.elapsed(rt).ok()?;
        Some(passed.as_secs())
    }
}

/// Returns how many tracks an accepted ANNOUNCE has: each is opened by a line `m=`, and none is the first line (RFC 4566, 5).
fn tracks_in(request: &Request) -> usize
    ensures { result ≡ media_lines request.now.body }
{
    count_media(request.body.as_slice())
}
