//! Whether steps obey the rule on the sizes of their coefficients and amounts.

ghost use Rattle.std.specs.Prelude.{◌≡◌, ◌≤◌, ◌<◌, ◌++◌, [], ◌∷◌, pos, true, length};
ghost use Rattle.std.specs.Prelude.{All, IsTrue, IsFalse};
ghost use Rattle.std.specs.List.{list_all};
ghost use Rattle.whole_laws.specs.Whole.{places};
ghost use Rattle.model_specs.specs.MonthNumbers.{bernstein_numerators};
ghost use Rattle.model_specs.specs.RecordRules.{is_bounded, months_of, IsBoundedPayment};
ghost use Rattle.named_numbers.specs.Numbers.{most_months};
ghost use Rattle.payment_plan.specs.Records.{record_of, starts_of, steps_of};
ghost use Rattle.product_file.specs.PaymentRules.{are_small, is_bounded_step};

use named_numbers::{BERNSTEIN_UNIT, MOST_AMOUNT, MOST_COEFFICIENT};
use payment_plan::StepAmount;
use poly_small::Poly;

// The largest size of a Bernstein numerator.
const LARGEST_AMOUNT: u128 = MOST_AMOUNT * BERNSTEIN_UNIT;

// Whether each |c[i]| s^i is at most 10^22, for a step of s months.
fn is_bounded(c: &[i64; 4], months: u32) -> bool
    requires term { months ≤ most_months }
    ensures { result ≡ is_bounded c.now months }
{
    let mut power: u128 = 1;
    for number in c {
        if u128::from(number.unsigned_abs()) * power > MOST_COEFFICIENT {
            return false;
        }
        power *= u128::from(months);
    }
    true
}

// The polynomial of the years since a step's start.
fn in_years(c: &[i64; 4]) -> Poly
    ensures { result.c ≡ c.now ++ (pos 0 ∷ pos 0 ∷ []) }
{
    let [c0, c1, c2, c3] = *c;
    Poly {
        c: [
            i128::from(c0),
            i128::from(c1),
            i128::from(c2),
            i128::from(c3),
            0,
            0,
        ],
    }
}

// Whether no Bernstein numerator is too large.
fn are_small(numerators: &[i128; 6]) -> bool
    ensures { result ≡ are_small numerators.now }
{
    numerators
        .iter()
        .all(|b| b.unsigned_abs() <= LARGEST_AMOUNT)
}

// The Bernstein numerators of a step in a month.
fn month_numerators(c: &[i64; 4], month: u32, months: u32) -> [i128; 6]
    requires inside { month < months }
    requires bounded { is_bounded c.now months ≡ true }
    ensures { result ≡ bernstein_numerators c.now month }
{
    in_years(c).month_bernstein(month)
}

// Whether no Bernstein coefficient of the amount of a step of so many months is too large.
fn has_small_amounts(c: &[i64; 4], months: u32) -> bool
    requires { is_bounded c.now months ≡ true }
    ensures { result ≡ list_all (λ k. are_small (bernstein_numerators c.now k)) (places months) }
{
    for month in 0..months {
        if !are_small(&month_numerators(c, month, months)) {
            return false;
        }
    }
    true
}

// Whether a step of so many months obeys rule 11.
fn is_small_step(step: &StepAmount, months: u32) -> bool
    requires term { months ≤ most_months }
    ensures { result ≡ is_bounded_step (record_of step.now) months }
{
    is_bounded(&step.c, months) && has_small_amounts(&step.c, months)
}

// For how many months the step at a place holds.
fn months_of(steps: &[StepAmount], k: usize, months: u32) -> u32
    requires inside { k < length steps.now }
    requires within { All (λ s. s.from < months) (steps_of steps.now) }
    requires term { months ≤ most_months }
    ensures value { result ≡ months_of months (starts_of steps.now) k }
    ensures few { result ≤ most_months }
{
    let end = if k + 1 < steps.len() {
        steps[k + 1].from
    } else {
        months
    };
    end.saturating_sub(steps[k].from)
}

/// Whether the steps of a payment, which start before the term, obey rule 11.
pub(crate) fn is_small_payment(steps: &[StepAmount], months: u32) -> bool
    requires within { All (λ s. s.from < months) (steps_of steps.now) }
    requires term { months ≤ most_months }
    ensures small { IsTrue result → IsBoundedPayment months (steps_of steps.now) }
    ensures too_large { IsFalse result → ¬ IsBoundedPayment months (steps_of steps.now) }
{
    for k in 0..steps.len() {
        if !is_small_step(&steps[k], months_of(steps, k, months)) {
            return false;
        }
    }
    true
}
