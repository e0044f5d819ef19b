//! Parts of a line.
ghost use Rattle.std.specs.Prelude.{◌≡◌};
ghost use Rattle.std.specs.Option.{option_copied};
ghost use Rattle.ring_script.specs.LineForms.{number_of, behind as rest_behind};

use base_syntax::read_number;

/// The largest number that nine digits can write.
const LARGEST: u32 = 999_999_999;

/// What stands after this beginning, if the text begins so.
pub(crate) fn behind<'a>(beginning: &[u8], text: &'a [u8]) -> Option<&'a [u8]>
    ensures { option_copied result ≡ rest_behind beginning.now text.now }
{
    if text.starts_with(beginning) {
        Some(&text[beginning.len()..])
    } else {
        None
    }
}

/// The number that one to nine decimal digits write.
pub(crate) fn number(text: &[u8]) -> Option<u64>
    ensures { result ≡ number_of text.now }
{
    if text.len() > 9 {
        return None;
    }
    read_number(text, LARGEST).map(u64::from)
}
