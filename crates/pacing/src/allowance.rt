//! How long a publisher may wait.
ghost use Rattle.std.specs.Prelude.{◌≡◌, ◌≤◌, ◌∷◌, [], ◌-◌};
ghost use Rattle.pacing.specs.Allowances.{IsWithin, counted_in, left_at, spent, waited_in};

/// The most that a publisher may wait in five consecutive windows, in microseconds.
const MOST: u64 = 20_000;

/// The length of a window, in microseconds.
const WINDOW: u64 = 50_000;

/// How long a publisher may still wait: 20 milliseconds in any 200. Moments are microseconds of a clock that doesn't go
/// back. A wait counts in the window of 50 milliseconds in which it ends.
#[derive(Clone, Copy, Debug, PartialEq, Eq, Drop)]
pub struct Allowance {
    /// The window in which the last wait ended, counted from 5.
    pub window: u64,
    /// The microseconds waited in it and in the four windows before it, the last first.
    pub waited: [u64; 5],
}

impl Allowance {
    /// No wait has counted yet.
    pub fn new() -> Allowance
        ensures new { result ≡ record { window = 0; waited = 0 ∷ 0 ∷ 0 ∷ 0 ∷ 0 ∷ [] } }
        ensures within { IsWithin result }
    {
        Allowance {
            window: 0,
            waited: [0, 0, 0, 0, 0],
        }
    }

    /// Returns how long a wait that begins now may take, in microseconds.
    pub fn left(&self, now: u64) -> u64
        ensures { result ≡ left_at self.now now }
    {
        let window = self.window.max(now / WINDOW + 5);
        let waited = self
            .in_window(window)
            .saturating_add(self.in_window(window - 1))
            .saturating_add(self.in_window(window - 2))
            .saturating_add(self.in_window(window - 3))
            .saturating_add(self.in_window(window - 4));
        MOST.saturating_sub(waited)
    }

    /// Counts a wait that began and ended at these moments. The waits of the four windows before the one that it counts in are
    /// kept, and those of earlier windows are dropped. If no wait lasts longer than was left when it began, no five consecutive
    /// windows, and so no 200 milliseconds, have more than 20 milliseconds of waits.
    pub fn spend(&mut self, began: u64, ended: u64)
        ensures within { IsWithin self.old → began ≤ ended → ended - began ≤ left_at self.old began → IsWithin self.new }
        ensures new { self.new ≡ record { window = counted_in self.old ended; waited = spent self.old (counted_in self.old ended) (ended - began) } }
    {
        let window = self.window.max(ended / WINDOW + 5);
        let waited = self
            .in_window(window)
            .saturating_add(ended.saturating_sub(began));
        *self = Allowance {
            window,
            waited: [
                waited,
                self.in_window(window - 1),
                self.in_window(window - 2),
                self.in_window(window - 3),
                self.in_window(window - 4),
            ],
        };
    }

    /// Returns the microseconds waited in a window.
    fn in_window(&self, window: u64) -> u64
        ensures { result ≡ waited_in self.now window }
    {
        if window > self.window {
            return 0;
        }
        match self.waited.get((self.window - window) as usize) {
            Some(waited) => *waited,
            None => 0,
        }
    }
}
