//! Since when a thread's mark is raised.
ghost use Rattle.std.specs.Prelude.{◌≡◌};
ghost use Rattle.thread_health.specs.Late.{is_late, since_after};

use server_counts::Mark;

/// How many milliseconds a thread may take to look.
const MOST_LATE: u64 = 2_000;

/// A thread's mark was raised at each observation from a moment on, with the same number of looks.
#[derive(Clone, Copy, Debug, PartialEq, Eq, Drop)]
pub struct RaisedSince {
    /// How often the thread had looked.
    pub looks: u64,
    /// The moment, in milliseconds.
    pub since: u64,
}

/// Returns since when a mark is raised, after one more observation at this moment. `None` if it isn't raised.
pub(crate) fn since_after(old: Option<RaisedSince>, mark: Mark, now: u64) -> Option<RaisedSince>
    ensures { result ≡ since_after old mark now }
{
    if !mark.is_raised {
        return None;
    }
    let begun = RaisedSince {
        looks: mark.looks,
        since: now,
    };
    match old {
        Some(old) if old.looks == mark.looks => Some(old),
        Some(_) | None => Some(begun),
    }
}

/// Returns whether there was something to do for a thread more than two seconds before this moment, and it hasn't looked since.
pub(crate) fn is_late(raised: Option<RaisedSince>, now: u64) -> bool
    ensures { result ≡ is_late raised now }
{
    match raised {
        Some(raised) => now.saturating_sub(raised.since) > MOST_LATE,
        None => false,
    }
}
