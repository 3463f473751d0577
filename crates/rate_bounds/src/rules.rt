//! Rules 15 to 17: the months in which they hold.

ghost use Rattle.std.specs.Prelude.{◌≡◌, ℕ, ◌^◌, ◌<◌, ◌*ℤ◌, ◌≤ℤ◌, int_le, neg_ℤ, pos};
ghost use Rattle.model_specs.specs.Product as model;
ghost use Rattle.model_specs.specs.MonthNumbers.{month_unit};
ghost use Rattle.rate_bounds.specs.Breaks.{obeys};
ghost use Rattle.rate_bounds.specs.MonthTables.{AreCurves};

use crate::curves::MonthCurves;

/// The rules that a product obeys month by month.
#[derive(Clone, Copy)]
pub(crate) enum MonthRule {
    /// Rule 15: each Bernstein coefficient of the interest is from -1/50 to 1/4 a year.
    Interest,
    /// Rule 16: no Bernstein coefficient of an intensity is below 0.
    Intensities,
    /// Rule 17: the greatest rates of a state's exits add up to at most 2 a year.
    Exits,
}

// Whether a number is at least -1/50.
fn is_at_least_lowest(number: i128, unit: i128) -> bool
    requires some { pos 1 ≤ℤ unit }
    requires most { unit ≤ℤ pos (2 ^ 62) }
    ensures { result ≡ int_le (neg_ℤ unit) (pos 50 *ℤ number) }
{
    // the product fits where the number is at least -1
    -unit <= number && -unit <= 50 * number.min(0)
}

// Whether a number is at most 1/4.
fn is_at_most_highest(number: i128, unit: i128) -> bool
    requires some { pos 1 ≤ℤ unit }
    requires most { unit ≤ℤ pos (2 ^ 62) }
    ensures { result ≡ int_le (pos 4 *ℤ number) unit }
{
    // the product fits where the number is at most 1
    number <= unit && 4 * number.max(0) <= unit
}

/// Whether a rule holds in the month of some numbers, whose unit is `2488320 * den`.
pub(crate) fn obeys(rule: MonthRule, curves: MonthCurves, unit: i128) -> bool
    requires some { pos 1 ≤ℤ unit }
    requires most { unit ≤ℤ pos (2 ^ 62) }
    ensures { (product : model.Product) (month : ℕ) → AreCurves product month curves
        → unit ≡ pos (month_unit product) → result ≡ obeys rule product month }
{
    match rule {
        MonthRule::Interest => {
            is_at_least_lowest(curves.low, unit) && is_at_most_highest(curves.high, unit)
        }
        MonthRule::Intensities => curves.least >= 0,
        MonthRule::Exits => curves.rho <= 2 * unit,
    }
}
