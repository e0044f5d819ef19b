//! The fixed header of an RTP packet (RFC 3550, 5.1).
ghost use Rattle.std.specs.Prelude.{◌≡◌, ◌≤◌, ◌↔◌, length, IsTrue};
ghost use Rattle.publisher.specs.Rtp.{IsRtp, point_of as point_in};

use transport_header::Point;

/// The bytes of the fixed header.
pub(crate) const FIXED_HEADER: usize = 12;

/// The bytes that name one contributing source.
const SOURCE: usize = 4;

/// The version of RTP, in the top two bits of the first byte.
const VERSION: u8 = 2;

/// Returns whether the bytes are an RTP packet: the version is 2, and the length is at least that of the
/// fixed header and of the contributing sources that it counts.
pub(crate) fn is_rtp(bytes: &[u8]) -> bool
    ensures { IsTrue result ↔ IsRtp bytes.now }
{
    if bytes.len() < FIXED_HEADER {
        return false;
    }
    let first = bytes[0];
    let sources = usize::from(first % 16);
    first / 64 == VERSION && FIXED_HEADER + SOURCE * sources <= bytes.len()
}

/// The sequence number and the timestamp of an RTP packet.
pub fn point_of(bytes: &[u8]) -> Point
    requires { 12 ≤ length bytes.now }
    ensures { result ≡ point_in bytes.now }
{
    Point {
        seq: u16::from_be_bytes([bytes[2], bytes[3]]),
        rtptime: u32::from_be_bytes([bytes[4], bytes[5], bytes[6], bytes[7]]),
    }
}
