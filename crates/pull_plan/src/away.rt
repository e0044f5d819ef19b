//! How long a source was away.
ghost use Rattle.std.specs.Prelude.{◌≡◌, ◌-◌};

use std::fmt;

/// How long no frames went on between two tries, in milliseconds.
#[derive(Clone, Copy, Debug, PartialEq, Eq, Drop)]
pub struct Away {
    pub milliseconds: u64,
}

impl Away {
    /// The time from the last frame of a try until one of a later try goes on, both in milliseconds of one clock.
    pub fn between(last: u64, again: u64) -> Away
        ensures { result.milliseconds ≡ again - last }
    {
        Away {
            milliseconds: again.saturating_sub(last),
        }
    }
}

impl fmt::Display for Away {
    ghost use Rattle.std.specs.Prelude.{Some};
    ghost use Rattle.pull_plan.specs.Away.{away_text};

    ghost output = { λ away. Some (away_text away) };

    fn fmt<W: fmt::Write>(&self, f: &mut fmt::Formatter<W>) -> fmt::Result {
        let seconds = self.milliseconds / 1_000;
        let tenths = self.milliseconds / 100 % 10;
        write!(f, "away {seconds}.{tenths} s")
    }
}
