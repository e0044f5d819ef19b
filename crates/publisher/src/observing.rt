//! The observer of what becomes of frames as they come.
ghost use Rattle.std.specs.Prelude.{ℕ, ⊤};

use crate::fate::Fate;

/// Sees what becomes of each frame of a publisher, as it comes.
pub trait FateObserver {
    ghost use Rattle.publisher.specs.declared.fate.Fate.{Fate};

    /// One call of `observe` with this fate and this number of bytes may lead from the first state to the second.
    ghost observes: { Self → Fate → ℕ → Self → Type 0 };

    /// Called for each frame, with its fate and how many bytes of data it has.
    fn observe(&mut self, fate: Fate, bytes: usize)
        ensures { observes self.old fate bytes self.new };
}

/// Sees nothing.
#[derive(Clone, Copy, Drop)]
pub(crate) struct Unobserved;

impl FateObserver for Unobserved {
    ghost observes = { λ _ _ _ _. ⊤ };

    fn observe(&mut self, _fate: Fate, _bytes: usize) {}
}
