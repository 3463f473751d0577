// Numbers in texts of bytes.
ghost use Rattle.std.specs.Prelude.{◌≡◌, ◌≤◌, ◌<◌, ◌^◌, pos, ◌≤ℤ◌, length, unsigned_abs, IfSome, true};
ghost use Rattle.std.specs.Char.{is_ascii_digit};
ghost use Rattle.std.specs.List.{list_all};
ghost use Rattle.decimal_in.specs.Decimals.{are_digits_up_to, fraction_of, has_needless_zero, millionths_of};
ghost use Rattle.decimal_in.specs.Decimals.{point_of, signed, size_of, value_of, whole_of};
ghost use Rattle.decimal_in.specs.Decimals.{has_minus, signed_whole_of, without_minus, unsigned_millionths_of};

// The most digits before a point, and after it.
pub(crate) const MOST_WHOLE: usize = 18;

pub(crate) const MOST_AFTER: usize = 6;

const MILLION: u128 = 1_000_000;

// Whether each byte is a digit.
fn all_digits(text: &[u8]) -> bool
    ensures { result ≡ list_all is_ascii_digit text.now }
{
    for byte in text {
        if !byte.is_ascii_digit() {
            return false;
        }
    }
    true
}

// Whether the text has one digit or more, up to so many, and nothing else.
pub(crate) fn are_digits(text: &[u8], most: usize) -> bool
    ensures { result ≡ are_digits_up_to most text.now }
{
    !text.is_empty() && text.len() <= most && all_digits(text)
}

// The number that digits stand for.
pub(crate) fn value(digits: &[u8]) -> u64
    requires count { length digits.now ≤ 18 }
    requires digits { list_all is_ascii_digit digits.now ≡ true }
    ensures value { result ≡ value_of digits.now }
    ensures small { result < 10 ^ length digits.now }
{
    let mut sum: u64 = 0;
    for digit in digits {
        sum = sum * 10 + u64::from(*digit - b'0');
    }
    sum
}

// Whether the first digit of several is 0.
fn needless_zero(text: &[u8]) -> bool
    ensures { result ≡ has_needless_zero text.now }
{
    text.len() > 1 && text[0] == b'0'
}

/// The whole number of up to so many digits without a needless zero.
pub fn whole(text: &[u8], most: usize) -> Option<u64>
    requires { most ≤ 18 }
    ensures value { result ≡ whole_of most text.now }
    ensures small { IfSome result (λ number. number < 10 ^ 18) }
{
    if are_digits(text, most) && !needless_zero(text) {
        Some(value(text))
    } else {
        None
    }
}

/// The whole number of up to so many digits without a needless zero, perhaps behind a minus sign.
pub fn signed_whole(text: &[u8], most: usize) -> Option<i64>
    requires { most ≤ 18 }
    ensures value { result ≡ signed_whole_of most text.now }
    ensures small { IfSome result (λ number. unsigned_abs number < 10 ^ 18) }
{
    let number = whole(unsigned(text), most)? as i64;
    Some(if minus(text) { -number } else { number })
}

// The millionths of up to six digits after a point.
fn fraction(text: &[u8]) -> Option<u64>
    ensures value { result ≡ fraction_of text.now }
    ensures small { IfSome result (λ number. number < 10 ^ 6) }
{
    if are_digits(text, MOST_AFTER) {
        Some(value(text) * 10u64.pow((MOST_AFTER - text.len()) as u32))
    } else {
        None
    }
}

// Where the first point stands, or the length of a text without one.
pub(crate) fn point(text: &[u8]) -> usize
    ensures { result ≡ point_of text.now }
{
    for (i, byte) in text.iter().enumerate() {
        if *byte == b'.' {
            return i;
        }
    }
    text.len()
}

// The millionths of a decimal without a sign.
fn size(text: &[u8]) -> Option<u128>
    ensures value { result ≡ size_of text.now }
    ensures small { IfSome result (λ number. number < 10 ^ 24) }
{
    let at = point(text);
    if at < text.len() {
        let number = whole(&text[..at], MOST_WHOLE)?;
        let millionths = fraction(&text[at + 1..])?;
        Some(u128::from(number) * MILLION + u128::from(millionths))
    } else {
        let number = whole(text, MOST_WHOLE)?;
        Some(u128::from(number) * MILLION)
    }
}

// Whether the first byte is a minus sign.
pub(crate) fn minus(text: &[u8]) -> bool
    ensures { result ≡ has_minus text.now }
{
    !text.is_empty() && text[0] == b'-'
}

// What stands behind a minus sign, or the whole text.
pub(crate) fn unsigned(text: &[u8]) -> &[u8]
    ensures { result.now ≡ without_minus text.now }
{
    if minus(text) { &text[1..] } else { text }
}

// A number by its size.
pub(crate) fn with_sign(minus: bool, number: u128) -> i128
    requires { number < 10 ^ 24 }
    ensures value { result ≡ signed minus number }
    ensures small { unsigned_abs result < 10 ^ 24 }
{
    if minus {
        -(number as i128)
    } else {
        number as i128
    }
}

/// The millionths of a decimal: perhaps a minus sign, 1 to 18 digits without a needless zero, and perhaps a point and
/// 1 to 6 digits.
pub fn millionths(text: &[u8]) -> Option<i128>
    ensures value { result ≡ millionths_of text.now }
    ensures small { IfSome result (λ number. unsigned_abs number < 10 ^ 24) }
{
    let number = size(unsigned(text))?;
    Some(with_sign(minus(text), number))
}

/// The millionths of a decimal without a sign: 1 to 18 digits without a needless zero, and perhaps a point and 1 to 6
/// digits.
pub fn unsigned_millionths(text: &[u8]) -> Option<i128>
    ensures value { result ≡ unsigned_millionths_of text.now }
    ensures least { IfSome result (λ number. pos 0 ≤ℤ number) }
    ensures small { IfSome result (λ number. unsigned_abs number < 10 ^ 24) }
{
    let number = size(text)?;
    Some(with_sign(false, number))
}
