//! Try after try.
ghost use Rattle.std.specs.Prelude.{◌≤◌};

use crate::ended::Ended;
use crate::limits::PASSWORD_LOOK;
use crate::line::Line;
use crate::plan::Plan;
use crate::station::Station;
use crate::trying::{Tried, run_try};
use base_syntax::Bytes;
use pull_plan::{PasswordTries, Retry};
use std::alloc::Global;

/// What is known between tries.
#[derive(Drop)]
struct Between {
    retry: Retry,
    refusals: PasswordTries,
    password: Option<Bytes>,
    /// When the last frame went on.
    away_since: Option<u64>,
}

/// Tries until the program is to stop, or once. `first` is the first delay between two tries, in milliseconds, and `password` what the file
/// of the password has.
pub fn run_tries<S: Station>(
    station: &mut S,
    alloc: Global,
    plan: &Plan<'_>,
    first: u64,
    password: Option<Bytes>,
) -> Ended
    requires { first ≤ 60000 }
{
    let mut between = Between {
        retry: Retry::new(first),
        refusals: PasswordTries::new(),
        password,
        away_since: None,
    };
    for _ in 0..u64::MAX {
        let tried = run_try(station, alloc, plan, &between.password, between.away_since);
        let (figures, end) = (tried.figures, tried.end);
        station.log(&Line::Ends { figures, end });
        if plan.once {
            return Ended::once(alloc, end, figures.sent);
        }
        between.pause(station, &tried);
        if station.is_stopped() {
            return Ended::Good;
        }
    }
    Ended::Good
}

impl Between {
    /// Waits after a try until the next one.
    fn pause<S: Station>(&mut self, station: &mut S, tried: &Tried) {
        if let Some((_, last)) = tried.times.span {
            self.away_since = Some(last);
            self.refusals.forget();
        }
        if tried.end.is_refused_password() {
            self.refuse(station);
        }
        station.rest(self.retry.ended(tried.times.lasted()));
        self.read_password(station);
        self.await_password(station);
    }

    /// Waits until the password may be sent: it wasn't refused, the file has another one, or enough time has passed.
    fn await_password<S: Station>(&mut self, station: &mut S) {
        for _ in 0..u64::MAX {
            let wait = self.refusals.wait(station.now()).min(PASSWORD_LOOK);
            if wait == 0 || station.is_stopped() {
                return;
            }
            station.rest(wait);
            self.read_password(station);
        }
    }

    /// The source has refused the password.
    fn refuse<S: Station>(&mut self, station: &mut S) {
        let now = station.now();
        self.refusals.refused(now);
        if let Some(due) = self.refusals.due {
            let minutes = due.saturating_sub(now) / 60_000;
            station.log(&Line::Locked { minutes });
        }
    }

    /// Reads the password anew. If it is another one, the source hasn't refused it.
    fn read_password<S: Station>(&mut self, station: &mut S) {
        let Some(password) = station.password() else {
            return;
        };
        let is_same = match &self.password {
            Some(old) => old.as_slice() == password.as_slice(),
            None => false,
        };
        if !is_same {
            self.refusals.forget();
            self.password = Some(password);
        }
    }
}
