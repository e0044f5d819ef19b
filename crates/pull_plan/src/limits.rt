//! The limits of what happens between two tries. What happens at each is in `docs/LIMITS.md`.

/// The shortest first delay between two tries that can be asked for, in milliseconds.
pub const SHORTEST_RETRY: u64 = 10;

/// The longest first delay between two tries that can be asked for, in milliseconds.
pub const LONGEST_RETRY: u64 = 60_000;

/// How many times the first delay the longest delay between two tries is.
pub(crate) const MOST_DELAYS: u64 = 30;

/// For how long frames go on before the next delay is the first one again, in milliseconds.
pub(crate) const STEADY_TIME: u64 = 10_000;

/// How long a password that was refused once isn't sent again, in milliseconds: cameras lock accounts after five refusals.
pub(crate) const FIRST_REFUSAL_WAIT: u64 = 600_000;

/// How long a password that was refused more than once isn't sent again, in milliseconds.
pub(crate) const NEXT_REFUSAL_WAIT: u64 = 1_800_000;
