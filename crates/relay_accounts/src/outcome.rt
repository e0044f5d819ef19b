//! What became of a connection, as log lines report it.
ghost use Rattle.std.specs.Prelude.{◌≡◌, None, false};
ghost use Rattle.relay_accounts.specs.Counting.{nothing_counted};

use crate::counts::Counts;
use crate::ending::ConnectionEnd;
use base_syntax::Bytes;
use std::fmt;

/// Which part a connection has in a mount.
#[derive(Drop)]
pub struct Part {
    /// The mount's name.
    pub name: Bytes,
    /// Whether it publishes the mount; else it plays it.
    pub publishes: bool,
}

impl fmt::Display for Part {
    fn fmt<W: fmt::Write>(&self, f: &mut fmt::Formatter<W>) -> fmt::Result {
        let role = if self.publishes {
            "publisher"
        } else {
            "player"
        };
        write!(f, "{role} of {}", self.name.as_slice().escape_ascii())
    }
}

/// How a connection ended, and what became of its packets.
#[derive(Drop)]
pub struct Outcome {
    pub end: ConnectionEnd,
    /// What was counted since its last session began, or since that ended.
    pub counts: Counts,
    /// Whether they are that session's account, which isn't logged yet.
    pub has_account: bool,
    /// Its part in the mount of its last session. `None` if it had none, or if there was no memory for the name.
    pub part: Option<Part>,
}

impl Outcome {
    /// A connection ended so before its first request.
    pub fn without_requests(end: ConnectionEnd) -> Outcome
        ensures { result ≡ record { end = end; counts = nothing_counted; has_account = false; part = None } }
    {
        Outcome {
            end,
            counts: Counts::new(),
            has_account: false,
            part: None,
        }
    }
}
