//! What an `m=` line says (RFC 4566, 5.14).
ghost use Rattle.std.specs.Prelude.{◌≡◌, ◌≤◌, length, None, Some, IfSome, IfNone};
ghost use Rattle.sdp.specs.Media.{media_of, media_line, named_by, names_transport, words};

use crate::port::is_port;
use crate::words::next_word;
use base_syntax::trim_end;

/// The media of an `m=` line, and the text in which its formats stand. `None` where the line has another form.
#[tactic(auto, unfolding(crate::specs::Media::media_of))]
pub(crate) fn find_media(line: &[u8]) -> Option<(&[u8], &[u8])>
    requires { 2 ≤ length line.now }
    ensures some { IfSome result (λ r. media_of line.now ≡ Some (media_line r.0.now r.1.now)) }
    ensures none { IfNone result (media_of line.now ≡ None) }
{
    let value = &line[2..];
    if value.starts_with(b" ") {
        return None;
    }
    find_fields(trim_end(value))
}

/// Whether a port and the one protocol of this profile stand in their places.
fn is_transport(port: &[u8], proto: &[u8]) -> bool
    ensures { result ≡ names_transport port.now proto.now }
{
    is_port(port) && proto == b"RTP/AVP".as_slice()
}

/// The media among the words of an `m=` line, and the text in which its formats stand.
fn find_fields(text: &[u8]) -> Option<(&[u8], &[u8])>
    ensures some { IfSome result (λ r. named_by (words text.now) ≡ Some (media_line r.0.now r.1.now)) }
    ensures none { IfNone result (named_by (words text.now) ≡ None) }
{
    let (media, rest) = next_word(text)?;
    let (port, rest) = next_word(rest)?;
    let (proto, formats) = next_word(rest)?;
    let _ = next_word(formats)?;
    if is_transport(port, proto) {
        Some((media, formats))
    } else {
        None
    }
}
