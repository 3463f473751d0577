//! Steps that start anew in a month.

ghost use Rattle.std.specs.Prelude.{◌≡◌, ◌≢◌, ◌≤◌, ◌<◌, ◌^◌, pos, ◌*ℤ◌, unsigned_abs, All, IsTrue, IsFalse};
ghost use Rattle.std.specs.Prelude.{IfOk, IfSome, IfNone, SomeIff, FitsSigned};
ghost use Rattle.std.specs.Int.{w64};
ghost use Rattle.frac_laws.specs.Fraction.{over, whole};
ghost use Rattle.frac_laws.specs.Rounding.{floor_of};
ghost use Rattle.named_numbers.specs.Numbers.{most_months};
ghost use Rattle.model_specs.specs.Payments.{step_at};
ghost use Rattle.model_specs.specs.RecordRules.{IsPayment};
ghost use Rattle.payment_plan.specs.Records.{record_of, steps_of};
ghost use Rattle.file_changes.specs.ContinuousAsks.{AreWords, AreWholeLater, GoesOnWhole};
ghost use Rattle.file_changes.specs.ContinuousCharges as charges;

use curve_pieces::last_start;
use payment_plan::StepAmount;
use std::alloc::{AllocError, Global};

// A term of a numerator.
fn term(factor: u32, c: i64) -> i128
    ensures value { result ≡ pos factor *ℤ c }
    ensures size { unsigned_abs result < 2 ^ 95 }
{
    i128::from(factor) * i128::from(c)
}

// The numerators of three coefficients some months later, over 12^3, 12^2 and 12.
fn numerators_later(c: &[i64; 4], months: u32) -> [i128; 3]
    requires { months ≤ most_months }
    ensures { result ≡ charges.numerators_later months c.now }
{
    let square = months * months;
    [
        term(1728, c[0])
            + term(144 * months, c[1])
            + term(12 * square, c[2])
            + term(square * months, c[3]),
        term(144, c[1]) + term(24 * months, c[2]) + term(3 * square, c[3]),
        term(12, c[2]) + term(3 * months, c[3]),
    ]
}

// floor(numerator / divisor), if it has at most 64 bits.
fn rounded_down(numerator: i128, divisor: u32) -> Option<i64>
    requires { 1 ≤ divisor }
    ensures { SomeIff result (FitsSigned w64 (floor_of numerator (pos divisor))) (floor_of numerator (pos divisor)) }
{
    i64::try_from(numerator.div_euclid(i128::from(divisor))).ok()
}

// Coefficients some months later, each rounded down; none where one of them has more than 64 bits.
fn coefficients_later(c: &[i64; 4], months: u32) -> Option<[i64; 4]>
    requires { months ≤ most_months }
    ensures later { IfSome result (λ later. later ≡ charges.coefficients_later months c.now) }
    ensures words { IfSome result (λ later. AreWords later) }
    ensures too_large { IfNone result (¬ AreWords (charges.coefficients_later months c.now)) }
{
    let numerators = numerators_later(c, months);
    Some([
        rounded_down(numerators[0], 1728)?,
        rounded_down(numerators[1], 144)?,
        rounded_down(numerators[2], 12)?,
        c[3],
    ])
}

// Whether numerator / divisor is a whole number.
fn is_whole(numerator: i128, divisor: u32) -> bool
    requires { 1 ≤ divisor }
    ensures whole { IsTrue result → whole (floor_of numerator (pos divisor)) ≡ over numerator divisor }
    ensures not_whole { IsFalse result → whole (floor_of numerator (pos divisor)) ≢ over numerator divisor }
{
    numerator.rem_euclid(i128::from(divisor)) == 0
}

// Whether the coefficients are whole some months later.
fn are_whole_later(c: &[i64; 4], months: u32) -> bool
    requires { months ≤ most_months }
    ensures whole { IsTrue result → AreWholeLater months c.now }
    ensures not_whole { IsFalse result → ¬ AreWholeLater months c.now }
{
    let numerators = numerators_later(c, months);
    is_whole(numerators[0], 1728) && is_whole(numerators[1], 144) && is_whole(numerators[2], 12)
}

// The step that holds in a month.
fn held_step(steps: &[StepAmount], month: u32, months: u32) -> StepAmount
    requires good { IsPayment months (steps_of steps.now) }
    requires within { month < months }
    ensures step_is { record_of result ≡ step_at (steps_of steps.now) month }
    ensures started { result.from ≤ month }
{
    steps[last_start(steps, month)]
}

/// The step that holds in a month, started anew there; none where a coefficient has more than 64 bits.
fn continued_step(steps: &[StepAmount], month: u32, months: u32) -> Option<StepAmount>
    requires good { IsPayment months (steps_of steps.now) }
    requires within { month < months }
    requires term { months ≤ most_months }
    ensures changed { IfSome result (λ step. record_of step
        ≡ charges.continued_step month (step_at (steps_of steps.now) month)) }
    ensures words { IfSome result (λ step. AreWords step.c) }
    ensures too_large { IfNone result
        (¬ AreWords (charges.continued_step month (step_at (steps_of steps.now) month)).c) }
{
    let step = held_step(steps, month, months);
    let c = coefficients_later(&step.c, month - step.from)?;
    Some(StepAmount { from: month, c })
}

// The same coefficients. They tell a proof that they have 64 bits.
fn same_coefficients(c: &[i64; 4]) -> [i64; 4]
    ensures same { result ≡ c.now }
    ensures words { AreWords result }
{
    let [c0, c1, c2, c3] = *c;
    [c0, c1, c2, c3]
}

// The same step.
fn same_step(step: &StepAmount) -> StepAmount
    ensures same { result ≡ step.now }
    ensures words { AreWords result.c }
{
    StepAmount {
        from: step.from,
        c: same_coefficients(&step.c),
    }
}

/// The steps from a month on: that of the month starts anew there, and the later ones are as they were; none where a
/// coefficient has more than 64 bits.
pub(crate) fn steps_from(
    alloc: Global,
    steps: &[StepAmount],
    month: u32,
    months: u32,
) -> Result<Option<Vec<StepAmount>>, AllocError>
    requires good { IsPayment months (steps_of steps.now) }
    requires within { month < months }
    requires term { months ≤ most_months }
    ensures changed { IfOk result (λ found. IfSome found (λ later. steps_of later.items
        ≡ charges.steps_from month (steps_of steps.now))) }
    ensures words { IfOk result (λ found. IfSome found (λ later. All (λ s. AreWords s.c) (steps_of later.items))) }
    ensures too_large { IfOk result (λ found. IfNone found
        (¬ All (λ s. AreWords s.c) (charges.steps_from month (steps_of steps.now)))) }
{
    let Some(first) = continued_step(steps, month, months) else {
        return Ok(None);
    };
    let mut later = Vec::new(alloc);
    later.push(first)?;
    for i in 0..steps.len() {
        if month < steps[i].from {
            later.push(same_step(&steps[i]))?;
        }
    }
    Ok(Some(later))
}

/// Whether the step that holds in a month goes on in whole coefficients from there.
pub(crate) fn goes_on_whole(steps: &[StepAmount], month: u32, months: u32) -> bool
    requires good { IsPayment months (steps_of steps.now) }
    requires within { month < months }
    requires term { months ≤ most_months }
    ensures whole { IsTrue result → GoesOnWhole month (steps_of steps.now) }
    ensures not_whole { IsFalse result → ¬ GoesOnWhole month (steps_of steps.now) }
{
    let step = held_step(steps, month, months);
    are_whole_later(&step.c, month - step.from)
}
