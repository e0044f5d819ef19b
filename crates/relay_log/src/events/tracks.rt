//! How many tracks a description has.
ghost use Rattle.std.specs.Prelude.{◌≡◌};
ghost use Rattle.relay_log.specs.Tracks.{media_lines};

/// Counts the lines of a description that open a track.
pub(crate) fn count_media(text: &[u8]) -> usize
    ensures { result ≡ media_lines text.now }
{
    let mut count = 0;
    for place in 0..text.len() {
        if text[place..].starts_with(b"\nm=") {
            count += 1;
        }
    }
    count
}
