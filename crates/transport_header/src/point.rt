//! Where a track's packets stand.

/// The last RTP packet of a track that was published (RFC 2326, 12.33; RFC 3550, 5.1).
#[derive(Clone, Copy, Debug, PartialEq, Eq, Drop)]
pub struct Point {
    /// Its sequence number.
    pub seq: u16,
    /// Its RTP timestamp, in the units of the track's clock.
    pub rtptime: u32,
}
