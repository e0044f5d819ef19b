use base_syntax::Bytes;

/// One packet of a log. The tag is `2 * track`, and 1 more for RTCP.
#[derive(Debug, Drop)]
pub struct Packet {
    pub tag: u8,
    pub bytes: Bytes,
}
