//! Several counts, each of which is logged at most once a minute.
ghost use Rattle.std.specs.Prelude.{◌≡◌, ◌<◌, ℕ, map, IfSome, IfNone, All};
ghost use Rattle.relay_log.specs.Tallies.{due_at, earliest, IsDue, IsToldFirst};

use crate::sooner::sooner;
use crate::tally::Tally;

/// Returns when the first of these is due to be logged. `None` if nothing came since each was last logged.
pub(crate) fn first_due(tallies: &[Tally]) -> Option<u64>
    ensures { result ≡ earliest (map due_at tallies.now) }
{
    let mut due = None;
    for tally in tallies {
        due = sooner(due, tally.due());
    }
    due
}

/// Returns the place of the first of these that is due to be logged now, and its count; then it counts as logged.
pub(crate) fn tell_first(tallies: &mut [Tally], now: u64) -> Option<(usize, u64)>
    ensures told { IfSome result (λ told. IsToldFirst tallies.old tallies.new now told.0 told.1) }
    ensures none_due { IfNone result (All (λ tally. IsDue tally now → ⊥) tallies.old) }
    ensures same { IfNone result (tallies.new ≡ tallies.old) }
{
    for place in 0..tallies.len() {
        if let Some(count) = tallies[place].tell(now) {
            return Some((place, count));
        }
    }
    None
}
