//! What a track sends.
ghost use Rattle.std.specs.Prelude.{◌≡◌};
ghost use Rattle.source_sdp.specs.Media.{media_text};

/// What a track sends (RFC 4566, 5.14: media). Other media aren't relayed.
#[derive(Clone, Copy, Debug, PartialEq, Eq, Drop)]
pub enum Media {
    Audio,
    Video,
}

impl Media {
    /// The word that an `m=` line has for it.
    pub fn text(self) -> &'static [u8]
        ensures { result.now ≡ media_text self }
    {
        match self {
            Media::Audio => b"audio",
            Media::Video => b"video",
        }
    }
}
