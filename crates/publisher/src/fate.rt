//! What becomes of a frame.

/// What becomes of a frame of a publisher.
#[derive(Clone, Copy, Debug, PartialEq, Eq, Drop)]
pub enum Fate {
    /// It is a packet of the feed, with this tag.
    Published { tag: u8 },
    /// The feed refused it, because the place for it is pinned.
    Pinned,
    /// It is longer than the feed's packets may be.
    Oversize,
    /// The feed has no packet number left.
    Worn,
    /// The feed had no memory for it.
    Unkept,
    /// It came on an RTP channel, and is no RTP packet.
    BadRtp,
    /// Its channel is that of no track.
    Stranger,
}
