//! The texts of a server's status pages.
ghost use Rattle.std.specs.Prelude.{◌≡◌, ◌-◌, ◌<◌, ◌↔◌, Option, IfOk, IsTrue};
ghost use Rattle.server_counts.specs.declared.thread_mark.ServerThread.{ServerThread};
ghost use Rattle.status_json.specs.Status.{status_text};
ghost use Rattle.relay_main.specs.Pages.{HasMetrics, HasStatus, IsFirstLate, SaysLate, shown_metrics};

use crate::process::{ProcessFiles, read_process};
use bytes::Bytes;
use process_figures::ProcessFigures;
use relay_server::{ClockMoments, Reports};
use server_counts::ServerThread;
use session_state::Moments;
use status::Snapshot;
use status_answers::{Page, Pages, Text};
use status_json::put_status;
use status_page::{PAGE, POLICY};
use status_texts::{ServerFacts, put_metrics, put_player_metrics};
use std::alloc::{AllocError, Global};
use std::sync::{Arc, Mutex, Wait};
use std::time::{Clock, SystemTime, UNIX_EPOCH};
use thread_health::{Health, late_text};

/// How old a snapshot may be that is shown again, in milliseconds: at most four are made in a second, whoever asks.
const FRESH: u64 = 250;

/// The text of `/health` if no thread is late.
const WELL: &[u8] = b"well\n";

/// The figures of a server at a moment.
struct Look {
    /// When they were made, in milliseconds of the server's clock.
    made: u64,
    /// When they were made, in milliseconds since the beginning of 1970. `None` if that couldn't be read.
    wall: Option<u64>,
    snapshot: Snapshot,
}

impl Drop for Look {
    fn drop(self) {
        let Look {
            made: _,
            wall: _,
            snapshot: _,
        } = self;
    }
}

/// The figures of a server that were shown last, and how its threads were seen.
struct Looks<R> {
    moments: ClockMoments<R>,
    last: Option<Look>,
    health: Health,
}

impl<R: Drop> Drop for Looks<R> {
    fn drop(self) {
        let Looks {
            moments: _,
            last: _,
            health: _,
        } = self;
    }
}

/// The texts of a server's status pages.
///
/// The lock is held while a text is made, by the one thread that serves them.
pub(crate) struct ServerPages<R> {
    rt: R,
    alloc: Global,
    reports: Arc<Reports, Global>,
    facts: ServerFacts,
    /// Whether the metrics have samples for each player.
    shows_players: bool,
    process: Mutex<ProcessFiles>,
    looks: Mutex<Looks<R>>,
}

impl<R: Drop> Drop for ServerPages<R> {
    fn drop(self) {
        let ServerPages {
            rt: _,
            alloc: _,
            reports: _,
            facts: _,
            shows_players: _,
            process: _,
            looks: _,
        } = self;
    }
}

impl<R: Wait + Clock> Pages for ServerPages<R> {
    ghost use Rattle.relay_main.specs.Pages.{Shows};

    ghost shows = { λ pages page text. Shows pages.facts pages.shows_players page text };

    fn text(&self, page: Page) -> Result<Text, AllocError> {
        match page {
            Page::Overview => Ok(Text::with_policy(Bytes::from_static(PAGE.as_bytes()), POLICY)),
            Page::Metrics => Ok(Text::plain(self.metrics()?)),
            Page::Figures => Ok(Text::plain(self.status()?)),
            Page::Health => self.health(),
        }
    }
}

impl<R: Wait + Clock> ServerPages<R> {
    /// The pages of a server with these reports, by this clock.
    pub(crate) fn new(
        rt: R,
        alloc: Global,
        reports: Arc<Reports, Global>,
        facts: ServerFacts,
        shows_players: bool,
        process: ProcessFiles,
        moments: ClockMoments<R>,
    ) -> ServerPages<R>
        ensures facts { result.facts ≡ facts }
        ensures shows_players { result.shows_players ≡ shows_players }
    {
        let looks = Looks {
            moments,
            last: None,
            health: Health::new(alloc),
        };
        ServerPages {
            rt,
            alloc,
            reports,
            facts,
            shows_players,
            process: Mutex::new(process),
            looks: Mutex::new(looks),
        }
    }

    /// Returns the text of `/metrics` now. The only error is out of memory.
    fn metrics(&self) -> Result<Bytes, AllocError>
        ensures { IfOk result (HasMetrics self.now.facts self.now.shows_players) }
    {
        let process = read_process(&self.rt, self.alloc, &self.process);
        let mut looks = self.looks.lock(&self.rt);
        let look = looks.look(&self.rt, &self.reports)?;
        metrics_of(
            self.alloc,
            &look.snapshot,
            look.wall,
            &self.facts,
            &process,
            self.shows_players,
        )
    }

    /// Returns the text of `/status.json` now. The only error is out of memory.
    fn status(&self) -> Result<Bytes, AllocError>
        ensures { IfOk result HasStatus }
    {
        let mut looks = self.looks.lock(&self.rt);
        let look = looks.look(&self.rt, &self.reports)?;
        status_of(self.alloc, &look.snapshot)
    }

    /// Returns the text of `/health` now. The only error is out of memory.
    fn health(&self) -> Result<Text, AllocError>
        ensures { IfOk result (λ text. (late : Option ServerThread) × IsFirstLate late × SaysLate late text) }
    {
        let mut looks = self.looks.lock(&self.rt);
        let late = looks.late(&self.rt, &self.reports)?;
        health_of(self.alloc, late)
    }
}

/// Returns what `/health` says, if this thread is late. The only error is out of memory.
fn health_of(alloc: Global, late: Option<ServerThread>) -> Result<Text, AllocError>
    ensures { IfOk result (SaysLate late) }
{
    match late {
        None => Ok(Text::plain(Bytes::from_static(WELL))),
        Some(thread) => {
            let mut text = Text::plain(Bytes::from_vec(late_text(alloc, thread)?)?);
            text.is_well = false;
            Ok(text)
        }
    }
}

/// Returns the metrics of a snapshot, with samples for each player or without. The only error is out of memory.
fn metrics_of(
    alloc: Global,
    snapshot: &Snapshot,
    wall: Option<u64>,
    facts: &ServerFacts,
    process: &ProcessFigures,
    shows_players: bool,
) -> Result<Bytes, AllocError>
    ensures { IfOk result (λ bytes. bytes ≡ shown_metrics snapshot.now wall facts.now process.now shows_players) }
{
    let mut body = Vec::new(alloc);
    put_metrics(&mut body, snapshot, wall, facts, process)?;
    if shows_players {
        put_player_metrics(&mut body, snapshot)?;
    }
    Ok(Bytes::from_vec(body)?)
}

/// Returns the figures of a snapshot as JSON. The only error is out of memory.
fn status_of(alloc: Global, snapshot: &Snapshot) -> Result<Bytes, AllocError>
    ensures { IfOk result (λ bytes. bytes ≡ status_text snapshot.now) }
{
    let mut body = Vec::new(alloc);
    put_status(&mut body, snapshot)?;
    Ok(Bytes::from_vec(body)?)
}

impl<R: Wait + Clock> Looks<R> {
    /// Returns the figures of now, or of at most a quarter of a second ago.
    fn look(&mut self, rt: &R, reports: &Reports) -> Result<&Look, AllocError> {
        let now = self.moments.now();
        let look = match self.last.take() {
            Some(look) if is_fresh(look.made, now) => look,
            _ => Look {
                made: now,
                wall: wall_moment(rt),
                snapshot: reports.snapshot(rt, now)?,
            },
        };
        Ok(self.last.insert(look))
    }

    /// Looks at the marks of the server's threads. Returns the first thread that is late.
    fn late(&mut self, rt: &R, reports: &Reports) -> Result<Option<ServerThread>, AllocError>
        ensures { IfOk result IsFirstLate }
    {
        let marks = reports.marks(rt)?;
        self.health.observe(marks.as_slice(), self.moments.now())
    }
}

/// Returns the moment of the wall clock in milliseconds since the beginning of 1970, if it can be read and isn't before that.
fn wall_moment(rt: &impl Clock) -> Option<u64> {
    let Ok(now) = SystemTime::now(rt) else {
        return None;
    };
    let Ok(passed) = now.duration_since(UNIX_EPOCH) else {
        return None;
    };
    u64::try_from(passed.as_millis()).ok()
}

/// Returns whether a snapshot that was made at one moment is shown again at another, both in milliseconds.
fn is_fresh(made: u64, now: u64) -> bool
    ensures { IsTrue result ↔ (now - made < 250) }
{
    now.saturating_sub(made) < FRESH
}
