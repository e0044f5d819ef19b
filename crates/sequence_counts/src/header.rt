//! The two fields of an RTP packet's header that name it.
ghost use Rattle.std.specs.Prelude.{◌≡◌, ◌↔◌, IfSome, IsSome};
ghost use Rattle.sequence_counts.specs.Header.{HasFixedHeader, source_of, sequence_number_of};

/// The bytes of the fixed header.
const FIXED_HEADER: usize = 12;

/// The version of RTP, in the top two bits of the first byte.
const VERSION: u8 = 2;

/// Returns the sequence number and the source (SSRC) of an RTP packet (RFC 3550, 5.1). Returns None if the bytes are fewer than 12, or
/// have another version than 2.
pub fn rtp_numbers(packet: &[u8]) -> Option<(u16, u32)>
    ensures fixed_header { IsSome result ↔ HasFixedHeader packet.now }
    ensures number { IfSome result (λ numbers. numbers.0 ≡ sequence_number_of packet.now) }
    ensures source { IfSome result (λ numbers. numbers.1 ≡ source_of packet.now) }
{
    if packet.len() < FIXED_HEADER || packet[0] / 64 != VERSION {
        return None;
    }
    let number = u16::from_be_bytes([packet[2], packet[3]]);
    let ssrc = u32::from_be_bytes([packet[8], packet[9], packet[10], packet[11]]);
    Some((number, ssrc))
}
