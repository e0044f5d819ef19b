//! A writer's sweep.
ghost use Rattle.std.specs.Prelude.{◌≡◌, ◌↔◌, false, IsTrue};
ghost use Rattle.waking.specs.Sweeps.{added, begun};

/// What a writer does with a player next.
#[derive(Clone, Copy, Debug, PartialEq, Eq, Drop)]
pub enum Next {
    /// Nothing, until its mount is marked or a lock is given back.
    Sleep,
    /// It looks at it again at once.
    Again,
    /// It looks at it again after so many milliseconds.
    Later(u64),
    /// Nothing more: it has nothing to send.
    Over,
}

/// What a writer has to do after a look at each of its players.
#[derive(Clone, Copy, Debug, PartialEq, Eq, Drop)]
pub struct Sweep {
    /// How often its list had changed when the sweep began.
    pub changes: u64,
    /// Whether a player is to be looked at again at once.
    pub again: bool,
    /// After how many milliseconds one is to be looked at again, if nobody wakes it.
    pub later: Option<u64>,
}

impl Sweep {
    /// No player was looked at.
    pub fn new(changes: u64) -> Sweep
        ensures { result ≡ begun changes }
    {
        Sweep {
            changes,
            again: false,
            later: None,
        }
    }

    /// A player was looked at, and this is next.
    pub fn add(&mut self, next: Next)
        ensures { self.new ≡ added next self.old }
    {
        match next {
            Next::Again => self.again = true,
            Next::Later(time) => {
                let sooner = match self.later {
                    Some(other) => other.min(time),
                    None => time,
                };
                self.later = Some(sooner);
            }
            Next::Sleep | Next::Over => {}
        }
    }

    /// Whether the writer may sleep, where its list has changed so often by now: no player is to be looked at at once, and none
    /// came, or was moved by one that left, and so may have been passed over.
    pub fn is_over(&self, changes: u64) -> bool
        ensures { IsTrue result ↔ ((self.now.again ≡ false) × (changes ≡ self.now.changes)) }
    {
        !self.again && changes == self.changes
    }
}
