//! The sooner of two moments.
ghost use Rattle.std.specs.Prelude.{◌≡◌};
ghost use Rattle.relay_log.specs.Moments.{sooner_of};

/// Returns the sooner of two moments. `None` if there is neither.
pub(crate) fn sooner(one: Option<u64>, other: Option<u64>) -> Option<u64>
    ensures { result ≡ sooner_of one other }
{
    match (one, other) {
        (Some(one), Some(other)) => Some(one.min(other)),
        (one, other) => one.or(other),
    }
}
