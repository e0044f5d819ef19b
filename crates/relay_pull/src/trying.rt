//! One try.
use crate::limits::LOOK_WAIT;
use crate::line::{Line, Track};
use crate::plan::Plan;
use crate::station::Station;
use crate::try_end::TryEnd;
use crate::turn::turn;
use crate::wires::Wires;
use base_syntax::Bytes;
use pull_plan::{Away, Figures, FrameTimes, ReportTimes};
use pull_session::{BLOCK_BYTES, Note, PullSession, Reason};
use rtsp_auth::Credentials;
use rtsp_client::End;
use source_urls::{Source, Target, read_source, read_target};
use std::alloc::{AllocError, Global};
use transport_header::MOST_TRACKS;

/// What came of a try.
#[derive(Drop)]
pub(crate) struct Tried {
    pub(crate) end: TryEnd,
    pub(crate) figures: Figures,
    pub(crate) times: FrameTimes,
}

impl Tried {
    /// Nothing came of it, for this reason.
    pub(crate) fn nothing(end: TryEnd) -> Tried {
        Tried {
            end,
            figures: Figures::nothing(),
            times: FrameTimes::new(),
        }
    }
}

/// A try that goes on.
#[derive(Drop)]
struct Trying {
    session: PullSession,
    buf: Vec<u8>,
    times: FrameTimes,
    reports: ReportTimes,
    reported: Figures,
    /// When the last frame of an earlier try went on, until frames go on again.
    away_since: Option<u64>,
}

/// Runs a try, with this password. The last frame of an earlier one went on at the moment `away_since`.
pub(crate) fn run_try<S: Station>(
    station: &mut S,
    alloc: Global,
    plan: &Plan<'_>,
    password: &Option<Bytes>,
    away_since: Option<u64>,
) -> Tried {
    let (mut wires, mut session) = match begin(station, alloc, plan, password) {
        Ok(begun) => begun,
        Err(end) => return Tried::nothing(end),
    };
    let Ok(buf) = vec![in alloc; 0u8; BLOCK_BYTES] else {
        return Tried::nothing(TryEnd::OutOfMemory);
    };
    let Ok(block) = vec![in alloc; 0u8; BLOCK_BYTES] else {
        return Tried::nothing(TryEnd::OutOfMemory);
    };
    session.give_block(block);
    let reports = ReportTimes::new(plan.report, station.now());
    let mut trying = Trying {
        session,
        buf,
        times: FrameTimes::new(),
        reports,
        reported: Figures::nothing(),
        away_since,
    };
    let failed = trying.attend(station, &mut wires);
    trying.tried(failed, &wires)
}

/// Connects to both sides.
fn begin<S: Station>(
    station: &mut S,
    alloc: Global,
    plan: &Plan<'_>,
    password: &Option<Bytes>,
) -> Result<(S::Wires, PullSession), TryEnd> {
    let source = read_source(alloc, plan.source.as_bytes()).map_err(TryEnd::Url)?;
    let target = read_target(alloc, plan.target.as_bytes()).map_err(TryEnd::Url)?;
    let credentials = credentials_of(alloc, &source, password)?;
    let cnonce = station.draw()?;
    let wires = station.connect(&source, &target)?;
    let session = PullSession::new(alloc, source, target, credentials, cnonce, plan.options);
    Ok((wires, session))
}

/// Returns the credentials for a source, if there are a user and a password for it.
fn credentials_of(
    alloc: Global,
    source: &Source,
    password: &Option<Bytes>,
) -> Result<Option<Credentials>, TryEnd> {
    let (Some(user), Some(password)) = (&source.user, password) else {
        return Ok(None);
    };
    let Ok((user, password, host)) = copies(alloc, user, password, &source.host) else {
        return Err(TryEnd::OutOfMemory);
    };
    match Credentials::new(user, password, host) {
        Ok(credentials) => Ok(Some(credentials)),
        Err(fault) => Err(TryEnd::Credentials(fault)),
    }
}

/// Returns copies of three texts.
fn copies(
    alloc: Global,
    one: &Bytes,
    two: &Bytes,
    three: &Bytes,
) -> Result<(Bytes, Bytes, Bytes), AllocError> {
    Ok((
        Bytes::from_slice(alloc, one.as_slice())?,
        Bytes::from_slice(alloc, two.as_slice())?,
        Bytes::from_slice(alloc, three.as_slice())?,
    ))
}

impl Trying {
    /// Reads and writes until the try is over. Returns the reason if the program has ended it.
    fn attend<S: Station>(&mut self, station: &mut S, wires: &mut S::Wires) -> Option<TryEnd> {
        let mut has_stopped = false;
        for _ in 0..u64::MAX {
            let now = station.now();
            if !has_stopped && station.is_stopped() {
                has_stopped = true;
                self.session.stop(now);
            }
            let has_more = turn(&mut self.session, wires, &mut self.buf, now);
            self.tell(station, now);
            if self.session.is_over(now) {
                return None;
            }
            // After a stop the place of a redirect isn't connected to.
            let redirect = if has_stopped {
                None
            } else {
                self.session.redirect()
            };
            if let Some(place) = redirect {
                if let Err(end) = station.reconnect(wires, place) {
                    return Some(end);
                }
                self.session.redirected();
                continue;
            }
            wires.wait(if has_more { 0 } else { LOOK_WAIT });
        }
        None
    }

    /// Logs what the session notes, how long no frames went on if they do again, and a report if one is due at this moment.
    fn tell<S: Station>(&mut self, station: &mut S, now: u64) {
        self.times.see(self.session.account().sent(), now);
        self.tell_notes(station);
        self.tell_away(station);
        if self.reports.look(now) {
            let figures = self.figures();
            station.log(&Line::Report(figures.since(&self.reported)));
            self.reported = figures;
        }
    }

    /// Logs how long no frames went on, once the first one of this try has.
    fn tell_away<S: Station>(&mut self, station: &mut S) {
        if let Some((first, _)) = self.times.span {
            if let Some(last) = self.away_since.take() {
                station.log(&Line::Away(Away::between(last, first)));
            }
        }
    }

    /// Logs what the session notes.
    fn tell_notes<S: Station>(&mut self, station: &mut S) {
        let mut begins = false;
        for note in self.session.notes().as_slice() {
            match note {
                Note::Begins => begins = true,
                note => station.log(&Line::Note(*note)),
            }
        }
        self.session.clear_notes();
        if begins {
            self.tell_beginning(station);
        }
    }

    /// Logs that frames are asked for, and of which tracks.
    fn tell_beginning<S: Station>(&mut self, station: &mut S) {
        let mut tracks = [None; MOST_TRACKS];
        for (place, track) in tracks.iter_mut().enumerate() {
            *track = self.track(place);
        }
        station.log(&Line::Begins(tracks));
    }

    /// Returns the track at this place among those that go on.
    fn track(&self, place: usize) -> Option<Track> {
        let media = self.session.media(place)?;
        let channels = self.session.channels(place)?;
        Some(Track { media, channels })
    }

    /// Returns what has come of the try.
    fn figures(&self) -> Figures {
        Figures::of(self.session.account(), self.session.counts())
    }

    /// Returns what came of the try, which the program has ended for this reason, or its session.
    fn tried<W: Wires>(self, failed: Option<TryEnd>, wires: &W) -> Tried {
        let figures = self.figures();
        let end = match (failed, self.session.reason()) {
            (Some(end), _) => end,
            (None, Some(reason)) => end_of(reason, wires),
            (None, None) => TryEnd::Session(Reason::Client(End::Stopped)),
        };
        Tried {
            end,
            figures,
            times: self.times,
        }
    }
}

/// Returns why a try has ended whose session ended for this reason.
fn end_of<W: Wires>(reason: Reason, wires: &W) -> TryEnd {
    if let Reason::Client(End::ConnectionLost { side }) = reason {
        if let Some(kind) = wires.failure(side) {
            return TryEnd::Lost { side, kind };
        }
    }
    TryEnd::Session(reason)
}
