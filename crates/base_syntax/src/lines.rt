//! Lines that an LF ends (RFC 2326, 15.1 and 4: CRLF ends a line, and a reader takes LF alone too).
ghost use Rattle.std.specs.Prelude.{◌≡◌, IfSome, IfNone};
ghost use Rattle.base_syntax.specs.Lines.{IsFirstLine, HasNoLf, said};

use crate::cutting::cut;

/// The first line, without its LF and one CR before it, and what follows it. `None` where no LF ends a line.
pub fn first_line(bytes: &[u8]) -> Option<(&[u8], &[u8])>
    ensures some { IfSome result (λ r. IsFirstLine bytes.now r.0.now r.1.now) }
    ensures none { IfNone result (HasNoLf bytes.now) }
{
    let (line, behind) = cut(bytes, b'\n');
    let rest = behind?;
    Some((without_cr(line), rest))
}

/// The line without one CR at its end, where it has one.
pub fn without_cr(line: &[u8]) -> &[u8]
    ensures { result.now ≡ said line.now }
{
    match line.strip_suffix(b"\r") {
        Some(front) => front,
        None => line,
    }
}
