// Decimals as they are written, with their places.
ghost use Rattle.std.specs.Prelude.{◌≡◌, ◌+◌, ◌*◌, ◌≤◌, ◌<◌, ◌^◌, pos, ◌≤ℤ◌, Some, length, unsigned_abs, IfSome, true};
ghost use Rattle.std.specs.Char.{is_ascii_digit};
ghost use Rattle.std.specs.List.{list_all};
ghost use Rattle.decimal_in.specs.Decimals.{value_of};
ghost use Rattle.decimal_in.specs.Places.{decimal_of, unsigned_decimal_of, with_digits};

use crate::Decimal;
use crate::decimals::{
    MOST_AFTER, MOST_WHOLE, are_digits, minus, point, unsigned, value, whole, with_sign,
};

// A number and the digits behind its point, as one number.
fn in_last_place(number: u64, behind: &[u8]) -> u128
    requires number { number < 10 ^ 18 }
    requires count { length behind.now ≤ 6 }
    requires digits { list_all is_ascii_digit behind.now ≡ true }
    ensures value { result ≡ number * 10 ^ length behind.now + value_of behind.now }
    ensures small { result < 10 ^ 24 }
{
    u128::from(number) * 10u128.pow(behind.len() as u32) + u128::from(value(behind))
}

// A number with the digits behind its point.
fn joined(number: u64, behind: &[u8]) -> Option<Decimal>
    requires { number < 10 ^ 18 }
    ensures value { result ≡ with_digits (Some number) behind.now }
    ensures least { IfSome result (λ decimal. pos 0 ≤ℤ decimal.units) }
    ensures small { IfSome result (λ decimal. unsigned_abs decimal.units < 10 ^ 24) }
    ensures few { IfSome result (λ decimal. decimal.places ≤ 6) }
{
    if are_digits(behind, MOST_AFTER) {
        Some(Decimal {
            units: with_sign(false, in_last_place(number, behind)),
            places: behind.len() as u32,
        })
    } else {
        None
    }
}

/// A decimal without a sign: 1 to 18 digits without a needless zero, and perhaps a point and 1 to 6 digits.
pub fn unsigned_decimal(text: &[u8]) -> Option<Decimal>
    ensures value { result ≡ unsigned_decimal_of text.now }
    ensures least { IfSome result (λ decimal. pos 0 ≤ℤ decimal.units) }
    ensures small { IfSome result (λ decimal. unsigned_abs decimal.units < 10 ^ 24) }
    ensures few { IfSome result (λ decimal. decimal.places ≤ 6) }
{
    let at = point(text);
    if at < text.len() {
        return joined(whole(&text[..at], MOST_WHOLE)?, &text[at + 1..]);
    }
    let number = whole(text, MOST_WHOLE)?;
    Some(Decimal {
        units: i128::from(number),
        places: 0,
    })
}

/// A decimal, of which `-0.010` is -10 at 3 places: perhaps a minus sign, 1 to 18 digits without a needless zero, and
/// perhaps a point and 1 to 6 digits.
pub fn decimal(text: &[u8]) -> Option<Decimal>
    ensures value { result ≡ decimal_of text.now }
    ensures small { IfSome result (λ decimal. unsigned_abs decimal.units < 10 ^ 24) }
    ensures few { IfSome result (λ decimal. decimal.places ≤ 6) }
{
    let mut found = unsigned_decimal(unsigned(text))?;
    if minus(text) {
        found.units = -found.units;
    }
    Some(found)
}
