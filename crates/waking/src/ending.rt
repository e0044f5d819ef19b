//! How a player's frames end.
ghost use Rattle.std.specs.Prelude.{◌≡◌};
ghost use Rattle.waking.specs.Endings.{ending_after, has_failed as has_failed_by, is_with_mount as is_with_mount_by};

/// Why a player's frames ended otherwise than with its mount.
#[derive(Clone, Copy, Debug, PartialEq, Eq, Drop)]
pub enum Failure {
    /// Its tap wasn't there.
    NoTap,
    OutOfMemory,
    /// The socket failed, or took nothing for so long that the player was given up.
    WriteFailed,
}

/// How a player's frames ended.
#[derive(Clone, Copy, Debug, PartialEq, Eq, Drop)]
pub enum Ending {
    /// With its mount. The last of them may wait for the socket.
    WithMount,
    /// With its mount, and the peer was sent the end of its stream after the last of them: it is disconnected at this moment.
    Closing(u64),
    Failed(Failure),
}

/// What the ring answered to a writer.
#[derive(Clone, Copy, Debug, PartialEq, Eq, Drop)]
pub enum Answer {
    /// There may be more to take: the takes were used up, or none was made.
    More,
    /// It has no further packet yet.
    Empty,
    /// It has no further packet, and none will come.
    Ended,
    /// The frames can't go on.
    Failed(Failure),
}

/// Whether frames that ended so have failed.
pub(crate) fn has_failed(ending: Option<Ending>) -> bool
    ensures { result ≡ has_failed_by ending }
{
    matches!(ending, Some(Ending::Failed(_)))
}

/// Whether frames that ended so have ended with their mount, and the peer wasn't told.
pub(crate) fn is_with_mount(ending: Option<Ending>) -> bool
    ensures { result ≡ is_with_mount_by ending }
{
    matches!(ending, Some(Ending::WithMount))
}

impl Answer {
    /// How frames that had ended so end after this answer: a failure is kept, and comes before an end with the mount.
    pub(crate) fn ending(self, ending: Option<Ending>) -> Option<Ending>
        ensures { result ≡ ending_after self ending }
    {
        if has_failed(ending) {
            return ending;
        }
        match self {
            Answer::Failed(failure) => Some(Ending::Failed(failure)),
            Answer::Ended => Some(ending.unwrap_or(Ending::WithMount)),
            Answer::More | Answer::Empty => ending,
        }
    }
}
