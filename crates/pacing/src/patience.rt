//! When a peer that takes nothing is tried again, and when it is given up.
ghost use Rattle.std.specs.Prelude.{◌≡◌, ◌≤◌, ◌-◌, ◌+◌, ◌*◌, ◌^◌, ◌↔◌, true, min};
ghost use Rattle.pacing.specs.Patiences.{is_recent, later, next_distance};

/// The longest distance of two tries, in milliseconds.
const MOST: u64 = 100;

/// The longest distance of two tries of a peer that a publisher may wait for, in milliseconds.
const MOST_AWAITED: u64 = 2;

/// For how many milliseconds a peer that takes nothing may be one whose network is only slow to acknowledge.
const RECENT: u64 = 20;

/// Bytes wait for a peer that takes none now: it is tried again after a millisecond, and then at distances that double up to a tenth
/// of a second. One that a publisher may wait for is tried every two milliseconds for the first 20. Moments are milliseconds of a clock that doesn't go back.
#[derive(Clone, Copy, Debug, PartialEq, Eq, Drop)]
pub struct Patience {
    /// When the peer last took a byte, or the first had to wait.
    pub since: u64,
    /// When it is tried next.
    pub due: u64,
    /// How long after a try in vain the next one is made.
    pub distance: u64,
}

impl Patience {
    /// Bytes begin to wait, or the peer took some of them.
    pub fn new(now: u64) -> Patience
        ensures { result ≡ record { since = now; due = later now 1; distance = 1 } }
    {
        Patience {
            since: now,
            due: now.saturating_add(1),
            distance: 1,
        }
    }

    /// Whether the peer is to be tried.
    pub fn is_due(&self, now: u64) -> bool
        ensures { result ≡ true ↔ self.now.due ≤ now }
    {
        self.due <= now
    }

    /// For how many milliseconds it isn't.
    pub fn rest(&self, now: u64) -> u64
        ensures { result ≡ self.now.due - now }
    {
        self.due.saturating_sub(now)
    }

    /// Whether the peer took a byte, or the first had to wait, less than 20 milliseconds ago.
    pub fn is_recent(&self, now: u64) -> bool
        ensures { result ≡ is_recent self.now now }
    {
        now.saturating_sub(self.since) < RECENT
    }

    /// The peer was tried in vain. `is_awaited` if a publisher may wait for it.
    pub fn wait_on(&mut self, now: u64, is_awaited: bool)
        ensures { self.new ≡ record { since = self.old.since; due = later now (next_distance self.old now is_awaited); distance = next_distance self.old now is_awaited } }
    {
        let most = if is_awaited && self.is_recent(now) {
            MOST_AWAITED
        } else {
            MOST
        };
        let distance = self.distance.saturating_mul(2).min(most);
        *self = Patience {
            since: self.since,
            due: now.saturating_add(distance),
            distance,
        };
    }

    /// Whether the peer has taken no byte for this many milliseconds.
    pub fn is_spent(&self, now: u64, most: u64) -> bool
        ensures { result ≡ true ↔ most ≤ now - self.now.since }
    {
        now.saturating_sub(self.since) >= most
    }
}
