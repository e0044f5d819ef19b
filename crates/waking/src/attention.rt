//! What a writer knows of a player.
ghost use Rattle.std.specs.Prelude.{◌≡◌, ◌↔◌, false, IsTrue};
ghost use Rattle.waking.specs.Attentions.{emptied, held, newcomer, to_look_at};

/// What a writer knows of one of its players between two looks at it.
#[derive(Clone, Copy, Debug, PartialEq, Eq, Drop)]
pub struct Attention {
    /// How often its mount's players had been woken when it last had taken all.
    pub seen: u64,
    /// Whether it is to be looked at though nobody was woken since: it came, its takes were used up, or its line was taken.
    pub again: bool,
}

impl Attention {
    /// Of a player that comes.
    pub fn new() -> Attention
        ensures { result ≡ newcomer }
    {
        Attention {
            seen: 0,
            again: true,
        }
    }

    /// Whether there is nothing to take where its mount's players were woken so often: nobody was woken since it had taken all,
    /// and it isn't to be looked at again.
    pub fn is_settled(&self, player_wakeups: u64) -> bool
        ensures { IsTrue result ↔ ((self.now.again ≡ false) × (player_wakeups ≡ self.now.seen)) }
    {
        !self.again && player_wakeups == self.seen
    }

    /// It is to be looked at again: its takes were used up, or its line was taken.
    pub fn look_again(&mut self)
        ensures { self.new ≡ to_look_at self.old }
    {
        self.again = true;
    }

    /// The writer has its line, and looks at it.
    pub fn hold(&mut self)
        ensures { self.new ≡ held self.old }
    {
        self.again = false;
    }

    /// It has taken all. `player_wakeups` was read before, so that what came since is another wake-up.
    pub fn found_empty(&mut self, player_wakeups: u64)
        ensures { self.new ≡ emptied player_wakeups }
    {
        *self = Attention {
            seen: player_wakeups,
            again: false,
        };
    }
}
