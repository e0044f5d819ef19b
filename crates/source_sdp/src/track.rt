//! A track that a server offers.

use crate::media::Media;
use base_syntax::{Bytes, Items};

/// A media section of a server's description that is relayed (RFC 4566, 5.14).
#[derive(Drop)]
pub struct SourceTrack {
    /// What is sent.
    pub media: Media,
    /// The payload formats, one or more, as they were given.
    pub formats: Items<Bytes>,
    /// The lines that describe the formats, as they were given: `a=rtpmap`, `a=fmtp`, `a=framerate` and `a=ptime` (RFC 4566, 6).
    pub attributes: Items<Bytes>,
    /// The value of the first `a=control` line that names a track, by which SETUP asks for it (RFC 2326, C.1.1). An empty value and `*`
    /// name none: they stand for the base URL.
    pub control: Option<Bytes>,
}
