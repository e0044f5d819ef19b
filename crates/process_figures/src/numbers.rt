//! Numbers of 64 bits.
ghost use Rattle.std.specs.Prelude.{◌≡◌};
ghost use Rattle.process_figures.specs.Numbers.{number_of};

/// Returns the number that a text spells: decimal digits, one or more. `None` if it is greater than 2^64 - 1, or no number.
pub(crate) fn read_number(text: &[u8]) -> Option<u64>
    ensures { result ≡ number_of text.now }
{
    let limit = u128::from(u64::MAX);
    let mut value: u128 = 0;
    for byte in text {
        if !byte.is_ascii_digit() {
            return None;
        }
        // After the limit, further digits only make the number larger.
        value = (value * 10 + u128::from(*byte - b'0')).min(limit + 1);
    }
    if text.is_empty() || value > limit {
        return None;
    }
    Some(value as u64)
}
