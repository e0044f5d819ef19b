//! Bytes, and a text that they may begin with.
ghost use Rattle.proxy_header.specs.Beginnings.{StartsAs};

/// How some bytes begin, compared with a text.
#[derive(Clone, Copy, Drop)]
pub(crate) enum Start<'a> {
    /// With the text. These bytes come after it.
    Whole(&'a [u8]),
    /// They are fewer, and the text begins with them.
    Begun,
    /// With another byte.
    Other,
}

/// Returns how the bytes begin, compared with a text.
pub(crate) fn start_of<'a>(bytes: &'a [u8], text: &[u8]) -> Start<'a>
    ensures { StartsAs bytes.now text.now result }
{
    if let Some(rest) = bytes.strip_prefix(text) {
        return Start::Whole(rest);
    }
    if text.starts_with(bytes) {
        Start::Begun
    } else {
        Start::Other
    }
}
