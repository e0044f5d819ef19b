//! The form of a line (RFC 4566, 5).
ghost use Rattle.std.specs.Prelude.{◌≡◌, drop, IfSome, IfNone, true, false};
ghost use Rattle.std.specs.List.{list_all};
ghost use Rattle.sdp.specs.Fields.{is_letter as is_listed, is_value_byte as may_stand, has_equals, is_field as is_good, names_unknown as has_unknown, is_media as opens_track, is_control};

const LETTERS: &[u8] = b"vosiuepcbtrzkam";

fn is_letter(byte: u8) -> bool
    ensures { result ≡ is_listed byte }
{
    LETTERS.contains(&byte)
}

fn is_value_byte(byte: u8) -> bool
    ensures { result ≡ may_stand byte }
{
    !(byte == 0 || (byte == b'\n' || byte == b'\r'))
}

fn is_value(bytes: &[u8]) -> bool
    ensures { result ≡ list_all may_stand bytes.now }
{
    bytes.iter().all(|byte| is_value_byte(*byte))
}

/// Whether a line is a listed letter, `=` and a value.
pub(crate) fn is_field(line: &[u8]) -> bool
    ensures { result ≡ is_good line.now }
{
    line.len() > 1 && line[1] == b'=' && (is_letter(line[0]) && is_value(&line[2..]))
}

/// Whether a line begins with a lower-case letter that isn't listed, and `=`.
pub(crate) fn names_unknown(line: &[u8]) -> bool
    ensures { result ≡ has_unknown line.now }
{
    line.len() > 1
        && line[1] == b'='
        && ((line[0] >= b'a' && line[0] <= b'z') && !is_letter(line[0]))
}

pub(crate) fn is_media(line: &[u8]) -> bool
    ensures { result ≡ opens_track line.now }
{
    line.starts_with(b"m=")
}

/// The value of a control attribute (RFC 2326, C.1.1). `None` where the line is another.
pub(crate) fn control_value(line: &[u8]) -> Option<&[u8]>
    ensures some { IfSome result (λ value. (is_control line.now ≡ true) × (value.now ≡ drop 10 line.now)) }
    ensures none { IfNone result (is_control line.now ≡ false) }
{
    line.strip_prefix(b"a=control:")
}
