//! The moments that tell when a session has expired.
ghost use Rattle.std.specs.Prelude.{ℕ};

/// What tells the time: moments are milliseconds of a clock that doesn't go back.
pub trait Moments {
    /// One call of `now` may lead from the one to the other and give this moment.
    ghost gives: { Self → ℕ → Self → Type 0 };

    /// This moment. Where the clock can't be read, the last moment again.
    fn now(&mut self) -> u64
        ensures { gives self.old result self.new };
}
