//! What a session is for.

/// What a session does for its connection, and its state (RFC 2326, A.2).
#[derive(Clone, Copy, Debug, PartialEq, Eq, Drop)]
pub enum SessionRole {
    /// A publisher that doesn't record: before its first RECORD, or after a PAUSE.
    PublisherReady,
    /// A publisher that records.
    PublisherRecording,
    /// A player that doesn't play: before its first PLAY, or after a PAUSE.
    PlayerReady,
    /// A player that has a seat.
    PlayerPlaying,
}
