//! Milliseconds as seconds.
ghost use Rattle.std.specs.Prelude.{◌≡◌, ◌<◌, ◌++◌, length, take, OnOk, OnErr};
ghost use Rattle.exposition.specs.Exposition.{seconds_text, three_digits as three_digits_of};

use itoa::Buffer;
use std::alloc::AllocError;

/// Returns the three digits of a number below 1000.
fn three_digits(number: u64) -> [u8; 3]
    requires { number < 1_000 }
    ensures { result ≡ three_digits_of number }
{
    [
        b'0' + (number / 100) as u8,
        b'0' + (number / 10 % 10) as u8,
        b'0' + (number % 10) as u8,
    ]
}

/// Appends milliseconds as seconds with three decimals, or a part of the text if memory is refused.
pub(crate) fn write_seconds(out: &mut Vec<u8>, milliseconds: u64) -> Result<(), AllocError>
    ensures text { OnOk result (out.new.items ≡ out.old.items ++ seconds_text milliseconds) }
    ensures kept { OnErr result (take (length out.old.items) out.new.items ≡ out.old.items) }
{
    let mut digits = Buffer::new();
    out.extend_from_slice(digits.format(milliseconds / 1_000).as_bytes())?;
    out.extend_from_slice(b".")?;
    out.extend_from_slice(&three_digits(milliseconds % 1_000))
}
