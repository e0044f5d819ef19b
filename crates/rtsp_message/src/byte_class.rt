//! Which bytes a part of a line is made of.
ghost use Rattle.std.specs.Prelude.{◌≡◌, ◌+◌, ◌<◌, ◌≤◌, ◌&&◌, ℕ, false, nat_le, length, take, drop, slice_index};

/// A class of bytes that a part of a line is made of (RFC 2326, 15.1).
#[derive(Clone, Copy, Debug, PartialEq, Eq)]
pub enum ByteClass {
    /// Visible ASCII without separators.
    Token,
    /// Visible ASCII, 0x21 to 0x7E.
    Visible,
    Space,
    /// A space or a tab.
    Blank,
    /// What a header value may hold: tab, 0x20 to 0x7E and 0x80 to 0xFF.
    Value,
}

const SEPARATORS: &[u8] = b"()<>@,;:\\\"/[]?={}";

impl ByteClass {
    ghost use Rattle.rtsp_message.specs.Lines.{is_in, Each};

    pub fn contains(self, byte: u8) -> bool
        ensures { result ≡ is_in self byte }
    {
        match self {
            ByteClass::Token => is_visible(byte) && !SEPARATORS.contains(&byte),
            ByteClass::Visible => is_visible(byte),
            ByteClass::Space => byte == b' ',
            ByteClass::Blank => byte == b' ' || byte == b'\t',
            ByteClass::Value => byte == b'\t' || (byte >= b' ' && byte <= b'~') || byte >= 0x80,
        }
    }

    /// How many bytes at the front are of the class.
    pub fn leading(self, bytes: &[u8]) -> usize
        ensures within { result ≤ length bytes.now }
        ensures run { Each self (take result bytes.now) }
        ensures stop { result < length bytes.now → is_in self (slice_index bytes.now result) ≡ false }
    {
        for (i, byte) in bytes.iter().enumerate() {
            if !self.contains(*byte) {
                return i;
            }
        }
        bytes.len()
    }
}

fn is_visible(byte: u8) -> bool
    ensures { result ≡ (nat_le 33 byte && nat_le byte 126) }
{
    byte >= 0x21 && byte <= 0x7e
}
