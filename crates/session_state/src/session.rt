//! Sessions (RFC 2326, 3.4 and A.2).
ghost use Rattle.std.specs.Prelude.{◌≡◌, IfOk};

use base_syntax::Bytes;
use std::alloc::{AllocError, Global};
use transport_header::TrackChannels;

/// The state of a session (RFC 2326, A.2). A connection without a session is in Init.
#[derive(Clone, Copy, Debug, PartialEq, Eq, Drop)]
pub enum State {
    Ready,
    /// It has this seat of its mount.
    Playing { seat: usize },
    Recording,
}

/// A session: of one connection, over one mount.
#[derive(Drop)]
pub struct Session {
    /// How many sessions have begun with this one, 1 to 2^32 - 1.
    pub number: u32,
    /// The word that was handed in when it began.
    pub word: u32,
    /// The number of its mount.
    pub mount: u64,
    /// The name of its mount, also after that has ended.
    pub name: Bytes,
    /// Whether it is its mount's owner's, to record.
    pub recording: bool,
    /// The channels of the tracks that are set up.
    pub channels: TrackChannels,
    pub state: State,
}

impl Session {
    /// A copy, or out of memory.
    fn copy(&self, alloc: Global) -> Result<Session, AllocError>
        ensures { IfOk result (λ copied. copied ≡ self.now) }
    {
        Ok(Session {
            number: self.number,
            word: self.word,
            mount: self.mount,
            name: Bytes::from_slice(alloc, self.name.as_slice())?,
            recording: self.recording,
            channels: self.channels.copy(),
            state: self.state,
        })
    }
}

/// A copy of a connection's session, where it has one.
pub(crate) fn copy_session(
    alloc: Global,
    session: &Option<Session>,
) -> Result<Option<Session>, AllocError>
    ensures { IfOk result (λ copied. copied ≡ session.now) }
{
    match session {
        Some(session) => Ok(Some(session.copy(alloc)?)),
        None => Ok(None),
    }
}
