//! Numbers of millionths, with a point and six digits.

ghost use Rattle.std.specs.Prelude.{◌≡◌, ◌<◌, ◌≤◌, ◌++◌, length, OnOk, OnErr};
ghost use Rattle.decimal_out.specs.Millionths.{digit, millionths, millionths_of_size};

use itoa::Buffer;
use std::alloc::AllocError;

/// How many bytes the point and the six digits behind it have.
const FRACTION: usize = 7;

// The digit of the number at a power of ten.
fn digit_at(number: u128, power: u128) -> u8
    requires { 0 < power }
    ensures { result ≡ digit number power }
{
    b'0' + (number / power % 10) as u8
}

// Appends a sign and a number of millionths that is not negative.
fn push_signed(out: &mut Vec<u8>, sign: &[u8], number: u128) -> Result<(), AllocError>
    requires { length sign.now ≤ 1 }
    ensures ok { OnOk result (out.new.items ≡ out.old.items ++ sign.now ++ millionths_of_size number) }
    ensures err { OnErr result (out.new.items ≡ out.old.items) }
{
    let mut buffer = Buffer::new();
    let whole = buffer.format(number / 1_000_000).as_bytes();
    // all room first, so that nothing is appended where it is refused
    out.reserve(sign.len() + whole.len() + FRACTION)?;
    out.extend_from_slice(sign)?;
    out.extend_from_slice(whole)?;
    out.extend_from_slice(&[
        b'.',
        digit_at(number, 100_000),
        digit_at(number, 10_000),
        digit_at(number, 1_000),
        digit_at(number, 100),
        digit_at(number, 10),
        digit_at(number, 1),
    ])
}

/// Appends a number of millionths that is not negative: the whole part, a point and six digits. The buffer stays as it
/// was where memory is refused.
pub fn push_size(out: &mut Vec<u8>, number: u128) -> Result<(), AllocError>
    ensures ok { OnOk result (out.new.items ≡ out.old.items ++ millionths_of_size number) }
    ensures err { OnErr result (out.new.items ≡ out.old.items) }
{
    push_signed(out, b"", number)
}

/// Appends a number of millionths: a minus sign below 0, the whole part, a point and six digits. The buffer stays as it
/// was where memory is refused.
pub fn push_millionths(out: &mut Vec<u8>, number: i128) -> Result<(), AllocError>
    ensures ok { OnOk result (out.new.items ≡ out.old.items ++ millionths number) }
    ensures err { OnErr result (out.new.items ≡ out.old.items) }
{
    if number < 0 {
        push_signed(out, b"-", number.unsigned_abs())
    } else {
        push_signed(out, b"", number.unsigned_abs())
    }
}
