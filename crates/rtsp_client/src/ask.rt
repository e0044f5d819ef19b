//! A request that a client sends.

use crate::asked::{Asked, Side};
use transport_header::ChannelPair;

/// The method of a request, with what its headers say.
#[derive(Clone, Copy, Debug, PartialEq, Eq, Drop)]
pub enum Method {
    Options,
    Describe,
    /// Of a track, with the channels that are asked for.
    SetUp {
        /// At the source the track's place among those that can be used, at the target among those that are set up: 0 to 15.
        track: usize,
        channels: ChannelPair,
    },
    Announce,
    Record,
    Play,
    /// Without a body (RFC 2326, 10.8).
    GetParameter,
    TearDown,
}

/// A request that is to be sent at once.
#[derive(Clone, Copy, Debug, PartialEq, Eq, Drop)]
pub struct Ask {
    pub side: Side,
    pub method: Method,
    /// What it is for.
    pub asked: Asked,
    /// Its CSeq (RFC 2326, 12.17).
    pub number: u32,
    /// Whether it has a Session header, with the identifier that `session` returns (12.37).
    pub has_session: bool,
    /// Whether the same was challenged by a 401, and is sent once more with an answer (RFC 7616, 3.3).
    pub is_repeat: bool,
}
