//! Cutting a text into lines.
ghost use Rattle.std.specs.Prelude.{◌<◌, ◌+◌, ◌≤◌, length};
ghost use Rattle.ring_script.specs.Lines.{IsFirstLine};

use base_syntax::cut;

/// The first line of a text, and the text after it.
pub(crate) fn first_line(text: &[u8]) -> (&[u8], &[u8])
    requires { 0 < length text.now }
    ensures line { IsFirstLine text.now result.0.now result.1.now }
    ensures shorter { length result.1.now < length text.now }
{
    let (line, after) = cut(text, b'\n');
    match after {
        Some(rest) => (line, rest),
        None => (line, b"".as_slice()),
    }
}
