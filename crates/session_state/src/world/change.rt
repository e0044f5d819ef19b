//! What an answer changes.

use crate::session::Session;
use base_syntax::Bytes;
use sdp::Description;
use transport_header::ChannelPair;

/// What an answer changes in what the server remembers.
#[derive(Drop)]
pub(crate) enum Change {
    Nothing,
    /// The connection gets a mount of this name.
    Announce {
        name: Bytes,
        description: Description,
    },
    /// The connection gets this session.
    Begin(Session),
    /// A track of the session gets these channels.
    SetUp {
        track: usize,
        pair: ChannelPair,
    },
    /// The session takes a seat of its mount and plays from it.
    Play,
    Record,
    Pause,
    Teardown,
}
