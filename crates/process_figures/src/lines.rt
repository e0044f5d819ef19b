//! The lines of a file of `/proc`, by the names that they begin with.
ghost use Rattle.std.specs.Prelude.{◌≡◌};
ghost use Rattle.std.specs.Option.{option_copied};
ghost use Rattle.process_figures.specs.Lines.{behind_name, behind_named};

use base_syntax::cut;

/// Returns what is behind this name in a line that begins with it.
fn behind_name<'a>(name: &[u8], line: &'a [u8]) -> Option<&'a [u8]>
    ensures { option_copied result ≡ behind_name name.now line.now }
{
    line.strip_prefix(name)
}

/// Returns what is behind this name in the first line that begins with it.
pub(crate) fn behind_named<'a>(name: &[u8], text: &'a [u8]) -> Option<&'a [u8]>
    ensures { option_copied result ≡ behind_named name.now text.now }
{
    let mut rest = Some(text);
    while let Some(text) = rest {
        let (line, others) = cut(text, b'\n');
        if let Some(behind) = behind_name(name, line) {
            return Some(behind);
        }
        rest = others;
    }
    None
}
