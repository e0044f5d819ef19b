//! What a line is (RFC 4566, 5).
ghost use Rattle.std.specs.Prelude.{◌≡◌, ◌||◌, codes};
ghost use Rattle.std.specs.List.{list_all};
ghost use Rattle.sdp.specs.Fields.{is_letter as is_listed, is_value_byte as may_stand, is_field as is_good, is_media as opens_section};
ghost use Rattle.source_sdp.specs.Usable.{begins_with, describes_format as is_attribute};
ghost use Rattle.source_sdp.specs.Sorting.{is_sendonly as is_for_client};

const LETTERS: &[u8] = b"vosiuepcbtrzkam";

fn is_letter(byte: u8) -> bool
    ensures { result ≡ is_listed byte }
{
    LETTERS.contains(&byte)
}

fn is_value_byte(byte: u8) -> bool
    ensures { result ≡ may_stand byte }
{
    !(byte == 0 || (byte == b'\n' || byte == b'\r'))
}

fn is_value(bytes: &[u8]) -> bool
    ensures { result ≡ list_all may_stand bytes.now }
{
    bytes.iter().all(|byte| is_value_byte(*byte))
}

/// Whether a line is a listed letter, `=` and a value.
pub(crate) fn is_field(line: &[u8]) -> bool
    ensures { result ≡ is_good line.now }
{
    line.len() > 1 && line[1] == b'=' && (is_letter(line[0]) && is_value(&line[2..]))
}

/// Whether a line opens a media section.
pub(crate) fn is_media(line: &[u8]) -> bool
    ensures { result ≡ opens_section line.now }
{
    line.starts_with(b"m=")
}

/// Whether a line names a format, or has its parameters.
fn names_format(line: &[u8]) -> bool
    ensures { result ≡ (begins_with line.now (codes "a=rtpmap:") || begins_with line.now (codes "a=fmtp:")) }
{
    line.starts_with(b"a=rtpmap:") || line.starts_with(b"a=fmtp:")
}

/// Whether a line has the rate of frames, or the time that a packet spans.
fn paces_format(line: &[u8]) -> bool
    ensures { result ≡ (begins_with line.now (codes "a=framerate:") || begins_with line.now (codes "a=ptime:")) }
{
    line.starts_with(b"a=framerate:") || line.starts_with(b"a=ptime:")
}

/// Whether a line describes formats.
pub(crate) fn describes_format(line: &[u8]) -> bool
    ensures { result ≡ is_attribute line.now }
{
    names_format(line) || paces_format(line)
}

/// Whether a line says that its section is for the client to send.
pub(crate) fn is_sendonly(line: &[u8]) -> bool
    ensures { result ≡ is_for_client line.now }
{
    line == b"a=sendonly".as_slice()
}
