//! Which part of what was read from a source is fed to the reader next.
ghost use Rattle.std.specs.Prelude.{◌≡◌, ◌<◌, ◌≤◌, ◌⊎◌, length};
ghost use Rattle.rtsp_message.specs.Parts.{AreFew};

use crate::frames::frames_at;

/// The most bytes of a part that may hold anything: its units are at most one a byte.
const MIXED_BYTES: usize = 2_048;

/// The most frames of a part of whole frames, and the most bytes unless its first frame is longer. They are in memory at the
/// same time.
const FRAMES: usize = 512;

const FRAMES_BYTES: usize = 16_384;

/// How many of these bytes are fed to the reader next, for which `waiting` bytes wait there and at least `missing` are missing
/// from the frame under way, if one is.
///
/// Bytes that are whole frames are fed as such, if nothing waits: the reader cuts them out of one block. If more bytes are at
/// hand than a mixed part may have, such frames are fed alone, and before them the end of a frame under way, so that the next
/// part begins with a frame.
pub fn part_len(waiting: usize, missing: Option<usize>, bytes: &[u8]) -> usize
    requires { 0 < length bytes.now }
    ensures some { 0 < result }
    ensures within { result ≤ length bytes.now }
    ensures few { (result ≤ 2_048) ⊎ (waiting ≡ 0) × AreFew 512 bytes.now result }
{
    if bytes.len() <= MIXED_BYTES {
        return bytes.len();
    }
    if waiting == 0 {
        let frames = frames_at(bytes, FRAMES, FRAMES_BYTES);
        if frames.len > 0 {
            return frames.len;
        }
    }
    missing.unwrap_or(MIXED_BYTES).clamp(1, MIXED_BYTES)
}
