//! Which packets have the point of their track.
ghost use Rattle.std.specs.Prelude.{◌≡◌, ◌%◌, ◌/◌, ◌⊎◌, ◌<◌, ◌≤◌, length, IfSome, IfNone};
ghost use Rattle.publisher.specs.Rtp.{point_of as point_in};

use crate::rtp::{FIXED_HEADER, point_of};
use transport_header::Point;

/// Returns the track of an RTP packet, and its point. `None` for RTCP, which has an odd tag, and for a packet that is shorter
/// than the fixed header (RFC 3550, 5.1).
pub fn point_to_post(tag: u8, bytes: &[u8]) -> Option<(usize, Point)>
    ensures some { IfSome result (λ r. (tag % 2 ≡ 0) × (12 ≤ length bytes.now) × (r.0 ≡ tag / 2) × (r.1 ≡ point_in bytes.now)) }
    ensures none { IfNone result ((tag % 2 ≡ 1) ⊎ (length bytes.now < 12)) }
{
    if tag % 2 == 1 || bytes.len() < FIXED_HEADER {
        return None;
    }
    Some((usize::from(tag / 2), point_of(bytes)))
}
