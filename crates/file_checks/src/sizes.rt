//! The sizes of coefficients, and of amounts in the months of a step.

ghost use Rattle.std.specs.Prelude.{◌≡◌, ◌≤◌, ◌<◌, ◌++◌, [], ◌∷◌, pos, true, length};
ghost use Rattle.std.specs.List.{list_all};
ghost use Rattle.whole_laws.specs.Whole.{places};
ghost use Rattle.model_specs.specs.MonthNumbers.{bernstein_numerators};
ghost use Rattle.model_specs.specs.RecordRules.{is_bounded};
ghost use Rattle.named_numbers.specs.Numbers.{most_months};
ghost use Rattle.product_file.specs.PaymentRules.{are_small};

use named_numbers::{BERNSTEIN_UNIT, MOST_AMOUNT, MOST_COEFFICIENT};
use poly_small::Poly;

// The largest size of a Bernstein numerator.
const LARGEST_AMOUNT: u128 = MOST_AMOUNT * BERNSTEIN_UNIT;

/// Whether each |c[i]| s^i is at most 10^22, for a part of s months.
pub(crate) fn is_bounded(c: &[i64], months: u32) -> bool
    requires few { length c.now ≤ 6 }
    requires term { months ≤ most_months }
    ensures { result ≡ is_bounded c.now months }
{
    let mut power: u128 = 1;
    for number in c {
        if u128::from(number.unsigned_abs()) * power > MOST_COEFFICIENT {
            return false;
        }
        power *= u128::from(months);
    }
    true
}

// The polynomial of the years since a step's start.
fn in_years(c: &[i64; 4]) -> Poly
    ensures { result.c ≡ c.now ++ (pos 0 ∷ pos 0 ∷ []) }
{
    let [c0, c1, c2, c3] = *c;
    Poly {
        c: [
            i128::from(c0),
            i128::from(c1),
            i128::from(c2),
            i128::from(c3),
            0,
            0,
        ],
    }
}

// Whether no Bernstein numerator is too large.
fn are_small(numerators: &[i128; 6]) -> bool
    ensures { result ≡ are_small numerators.now }
{
    numerators
        .iter()
        .all(|b| b.unsigned_abs() <= LARGEST_AMOUNT)
}

// The Bernstein numerators of a step in a month.
fn month_numerators(c: &[i64; 4], month: u32, months: u32) -> [i128; 6]
    requires inside { month < months }
    requires bounded { is_bounded c.now months ≡ true }
    ensures { result ≡ bernstein_numerators c.now month }
{
    in_years(c).month_bernstein(month)
}

/// Whether no Bernstein coefficient of the amount of a step of so many months is too large.
pub(crate) fn has_small_amounts(c: &[i64; 4], months: u32) -> bool
    requires { is_bounded c.now months ≡ true }
    ensures { result ≡ list_all (λ k. are_small (bernstein_numerators c.now k)) (places months) }
{
    for month in 0..months {
        if !are_small(&month_numerators(c, month, months)) {
            return false;
        }
    }
    true
}
