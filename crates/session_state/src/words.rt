//! The words in session identifiers.
ghost use Rattle.std.specs.Prelude.{ℕ};

/// Where the random words in session identifiers come from.
pub trait Words {
    /// One call of `word` may lead from the one to the other and give this word.
    ghost gives: { Self → ℕ → Self → Type 0 };

    /// The next word.
    fn word(&mut self) -> u32
        ensures { gives self.old result self.new };
}
