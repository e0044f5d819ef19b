//! The standing of a player towards its publisher.
ghost use Rattle.std.specs.Prelude.{◌≡◌};
ghost use Rattle.pacing.specs.Rounds.{followed, given_up, levelled, reached};

/// The standing of a seat's player towards the publisher of its mount.
#[derive(Clone, Copy, Debug, PartialEq, Eq, Drop)]
pub enum Standing {
    /// The seat isn't taken.
    Absent,
    /// It hasn't taken all since it came, or since it was waited for in vain. It isn't waited for.
    Behind,
    /// It keeps up, and has taken `at` packets.
    Level { at: u64 },
    /// It keeps up, and the publisher waits until it has taken as many packets as this round asks for.
    Awaited,
}

impl Standing {
    /// Returns its standing after it has taken all when `at` packets were published.
    pub(crate) fn levelled(self, target: u64, at: u64) -> Standing
        ensures { result ≡ levelled target at self }
    {
        match self {
            Standing::Behind => Standing::Level { at },
            other => other.reached(target, at),
        }
    }

    /// Returns its standing after it has taken `at` packets, and perhaps not all.
    pub(crate) fn reached(self, target: u64, at: u64) -> Standing
        ensures { result ≡ reached target at self }
    {
        match self {
            Standing::Awaited if at < target => Standing::Awaited,
            Standing::Level { .. } | Standing::Awaited => Standing::Level { at },
            other => other,
        }
    }

    /// Returns its standing if it was seen to have taken `at` packets.
    pub(crate) fn followed(self, at: u64) -> Standing
        ensures { result ≡ followed at self }
    {
        match self {
            Standing::Level { .. } => Standing::Level { at },
            other => other,
        }
    }

    /// Returns its standing when a round has lasted as long as it may.
    pub(crate) fn given_up(self) -> Standing
        ensures { result ≡ given_up self }
    {
        match self {
            Standing::Awaited => Standing::Behind,
            other => other,
        }
    }
}
