//! The port of a URL (RFC 2326, 3.2).
ghost use Rattle.std.specs.Prelude.{◌≡◌};
ghost use Rattle.source_urls.specs.Port.{port_number};

use base_syntax::read_number;

/// The port of RTSP (RFC 2326, 3.2).
const RTSP_PORT: u16 = 554;

/// Returns the port that a text says, which is nothing, or a colon and digits: 1 to 65,535, and 554 if there are no digits. `None` for
/// another text.
pub(crate) fn port_number(text: &[u8]) -> Option<u16>
    ensures { result ≡ port_number text.now }
{
    match text {
        [] => Some(RTSP_PORT),
        [b':'] => Some(RTSP_PORT),
        [b':', digits @ ..] => match read_number(digits, 65_535) {
            Some(0) => None,
            Some(number) => Some(number as u16),
            None => None,
        },
        _ => None,
    }
}
