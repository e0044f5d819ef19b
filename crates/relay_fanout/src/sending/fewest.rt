//! Which writer has the fewest players.
ghost use Rattle.std.specs.Prelude.{◌≡◌, ℕ, List, [], ◌∷◌, ◌++◌, length};
ghost use Rattle.relay_fanout.specs.Fewest.{IsFewestOf};

/// The first of the writers with the fewest players, of those that were counted.
#[derive(Clone, Copy, Debug, PartialEq, Eq, Drop)]
pub(super) struct Fewest {
    pub(super) writer: usize,
    /// How many players it has.
    pub(super) players: usize,
}

impl Fewest {
    /// Writer 0 has this many players, and no other was counted.
    pub(super) fn first(players: usize) -> Fewest
        ensures { IsFewestOf (players ∷ []) result }
    {
        Fewest { writer: 0, players }
    }

    /// Counts the next writer, which has this number and this many players.
    pub(super) fn count(&mut self, writer: usize, players: usize)
        ensures { (counts : List ℕ) → length counts ≡ writer → IsFewestOf counts self.old → IsFewestOf (counts ++ players ∷ []) self.new }
    {
        if players < self.players {
            *self = Fewest { writer, players };
        }
    }
}
