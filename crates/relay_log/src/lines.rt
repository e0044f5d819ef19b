//! Lines for standard error, which one thread writes.
mod state;

ghost use Rattle.std.specs.Prelude.{◌≡◌};

use crate::backlog::Waiting;
use crate::limits::LAST_LINE;
use log::kv::Source;
use log::span::Spans;
use log::{LevelFilter, Log, Metadata, Record, warn};
use server_counts::ServerCounts;
use state::{Changed, Next, State};
use std::alloc::{AllocError, Global};
use std::fmt::Display;
use std::io::Eprint;
use std::sync::{Arc, Condvar, CondvarTimeouts, Mutex, Wait};
use std::time::{Clock, Duration, Instant};

/// The source that lines are logged with.
const TARGET: &str = "relay_server::lines";

/// Lines of a server that wait to be written by one thread, so that no other thread waits for the reader of standard error. A
/// line that finds 1,024 waiting is dropped, and a later line reports how many were dropped.
///
/// Any thread may log to it. Its lock is held for a change of the list; no other is taken meanwhile.
pub struct Lines<R> {
    rt: R,
    alloc: Global,
    state: Mutex<State<String>>,
    changed: Condvar,
    /// Notified when a line was taken to be written, once the server stops.
    has_room: Condvar,
    /// The counts of the server, which have each dropped line.
    counts: Arc<ServerCounts, Global>,
}

impl<R: Drop> Drop for Lines<R> {
    fn drop(self) {
        let Lines {
            rt: _,
            alloc: _,
            state: _,
            changed: _,
            has_room: _,
            counts: _,
        } = self;
    }
}

impl<R: Drop> Lines<R> {
    /// Nothing waits, of a server that counts here.
    pub fn new(
        rt: R,
        alloc: Global,
        counts: Arc<ServerCounts, Global>,
    ) -> Result<Lines<R>, AllocError> {
        Ok(Lines {
            rt,
            alloc,
            state: Mutex::new(State::new(alloc)?),
            changed: Condvar::new(),
            has_room: Condvar::new(),
            counts,
        })
    }
}

impl<R> Lines<R> {
    /// Returns the counts of the server.
    pub(crate) fn counts(&self) -> &Arc<ServerCounts, Global>
        ensures { result.now ≡ self.now.counts }
    {
        &self.counts
    }

    /// Counts the lines that a change dropped, and wakes those that wait for a change.
    fn note(&self, changed: Changed) {
        changed.tell(&self.changed, &self.counts);
    }
}

impl<R: Wait> Lines<R> {
    /// Counts a line that couldn't be made as dropped.
    pub fn miss(&self) {
        self.miss_all(1);
    }

    /// Counts `count` lines as dropped, because the threads that would have logged them haven't ended.
    pub fn miss_all(&self, count: u64) {
        let changed = self.state.lock(&self.rt).miss(count);
        self.note(changed);
    }

    /// No line comes any more: `write_all` ends once all are written.
    pub fn end(&self) {
        let changed = self.state.lock(&self.rt).close();
        self.note(changed);
    }

    /// Waits until there is something to do, and returns it.
    fn next(&self) -> Next<String> {
        self.changed
            .wait_while(&self.rt, self.state.lock(&self.rt), |state| {
                state.is_quiet()
            })
            .next()
    }
}

impl<R: Wait + Log + Eprint> Lines<R> {
    /// Writes each line, until they are closed and all are written.
    pub fn write_all(&self) {
        for _ in self.rt.forever() {
            match self.next() {
                Next::Write(Waiting { missed, item }, room_made) => {
                    room_made.tell(&self.has_room);
                    self.tell_missed(missed);
                    // If standard error is closed, the line is lost.
                    let _ = self.rt.eprintln(item.as_str());
                }
                Next::Missed(missed) => self.tell_missed(missed),
                Next::End(changed) => {
                    self.note(changed);
                    return;
                }
            }
        }
    }

    /// Logs that lines were dropped here.
    fn tell_missed(&self, missed: u64) {
        if missed > 0 {
            warn!(self.rt; target: TARGET, "{missed} lines were dropped, since nobody read them");
        }
    }
}

impl<R: Wait + Clock> Lines<R> {
    /// The server stops. For the next `most`, a thread that logs waits for room, so that its line isn't dropped while lines are
    /// read.
    pub fn wait_for_room(&self, most: Duration) {
        let until = match Instant::now(&self.rt) {
            Ok(now) => now.checked_add(most),
            Err(_) => None,
        };
        self.state.lock(&self.rt).wait_for_room(until);
    }

    /// No line comes any more. Waits at most `most` until all are written. Those that aren't by then are dropped and counted.
    pub fn close(&self, most: Duration) {
        self.end();
        let (mut state, _) = self
            .changed
            .wait_timeout_while(&self.rt, self.state.lock(&self.rt), most, |state| {
                !state.is_written()
            });
        if state.is_written() {
            return;
        }
        let changed = state.drop_all();
        self.note(changed);
        let last = Duration::from_millis(LAST_LINE);
        let _ = self
            .changed
            .wait_timeout_while(&self.rt, state, last, |state| !state.is_written());
    }

    /// Returns how long a thread that logs may still wait for room. `None` if it doesn't wait.
    fn time_for_room(&self, state: &State<String>) -> Option<Duration> {
        let until = state.room_until()?;
        let now = Instant::now(&self.rt).ok()?;
        let rest = until.checked_duration_since(now)?;
        (state.is_full() && !rest.is_zero()).then_some(rest)
    }
}

/// Logs the same levels as a program's runtime: info and above.
impl<R: Wait + Clock> Log for Lines<R> {
    ghost use Rattle.std.specs.Prelude.{[], Some};
    ghost use Rattle.log.specs.declared.level.LevelFilter.TheVariants.{Info};
    ghost use Rattle.log.specs.Level.{allows};

    ghost enables = { λ _ level _. Some (allows Info level) };

    ghost target_of = { λ _. Some [] };

    fn enabled(&self, metadata: &Metadata<'_>) -> bool {
        LevelFilter::Info.allows(metadata.level())
    }

    fn log<D: Display, K: Source, S: Spans>(&self, record: &Record<'_, D, K, S>) {
        if !LevelFilter::Info.allows(record.level()) {
            return;
        }
        let line = String::format(self.alloc, log::Line::new(record));
        let mut state = self.state.lock(&self.rt);
        if let Some(most) = self.time_for_room(&state) {
            state = self
                .has_room
                .wait_timeout_while(&self.rt, state, most, |state| state.is_full())
                .0;
        }
        let changed = match line {
            Ok(line) => state.put(line),
            Err(_) => state.miss(1),
        };
        drop(state);
        self.note(changed);
    }

    fn flush(&self) {}

    fn target(&self) -> &str {
        ""
    }
}
