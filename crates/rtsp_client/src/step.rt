//! How far a client has come.
ghost use Rattle.std.specs.Prelude.{◌≡◌};
ghost use Rattle.rtsp_client.specs.Steps.{asked_at, asked_in};

use crate::asked::{Asked, Side};

/// What a client asks for next, or waits for the reply of.
#[derive(Clone, Copy, Debug, PartialEq, Eq, Drop)]
pub enum Step {
    Options,
    Describe,
    /// A track of the source, by its place among those that can be used.
    SetUp { track: usize },
    Announce,
    /// A track of the target's mount, by its place among those that the source has set up.
    SetUpTarget { track: usize },
    Record,
    Play,
    /// Frames come and go on.
    Passing,
}

impl Step {
    /// Returns what it asks for. `None` if frames come and go on.
    pub fn asked(self) -> Option<Asked>
        ensures { result ≡ asked_in self }
    {
        match self {
            Step::Options => Some(Asked::Options),
            Step::Describe => Some(Asked::Describe),
            Step::SetUp { .. } => Some(Asked::SetUp),
            Step::Announce => Some(Asked::Announce),
            Step::SetUpTarget { .. } => Some(Asked::SetUpTarget),
            Step::Record => Some(Asked::Record),
            Step::Play => Some(Asked::Play),
            Step::Passing => None,
        }
    }

    /// Returns what it asks a side for. `None` if it asks the other one, or if frames come and go on.
    pub fn asked_at(self, side: Side) -> Option<Asked>
        ensures { result ≡ asked_at side self }
    {
        let asked = self.asked()?;
        if asked.side() == side {
            Some(asked)
        } else {
            None
        }
    }
}
