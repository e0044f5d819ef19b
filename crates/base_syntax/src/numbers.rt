//! Decimal numbers (RFC 2326, 15.1: 1*DIGIT).
ghost use Rattle.std.specs.Prelude.{◌≡◌};
ghost use Rattle.std.specs.List.{list_all};
ghost use Rattle.std.specs.Char.{is_ascii_digit};
ghost use Rattle.base_syntax.specs.Numbers.{number_up_to, is_numeral as is_numeral_text};

/// Whether a text is one or more decimal digits.
pub fn is_numeral(text: &[u8]) -> bool
    ensures { result ≡ is_numeral_text text.now }
{
    !text.is_empty() && is_all_digits(text)
}

fn is_all_digits(text: &[u8]) -> bool
    ensures { result ≡ list_all is_ascii_digit text.now }
{
    text.iter().all(|byte| byte.is_ascii_digit())
}

/// The number that decimal digits write, however many they are and with leading zeros too. `None` for another text, an
/// empty one, or a number over the limit.
pub fn read_number(text: &[u8], limit: u32) -> Option<u32>
    ensures { result ≡ number_up_to limit text.now }
{
    let limit = u64::from(limit);
    let mut value: u64 = 0;
    for byte in text {
        if !byte.is_ascii_digit() {
            return None;
        }
        // Past the limit, further digits only make the number larger.
        value = (value * 10 + u64::from(*byte - b'0')).min(limit + 1);
    }
    if text.is_empty() || value > limit {
        return None;
    }
    Some(value as u32)
}
