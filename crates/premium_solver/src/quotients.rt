//! Quotients of two intervals.

ghost use Rattle.std.specs.Prelude.{◌≡◌, ◌↔◌, ◌^◌, ◌≤◌, pos, ◌*ℤ◌, ◌≤ℤ◌, ◌<ℤ◌, unsigned_abs, IsErr, IfErr, IfOk};
ghost use Rattle.frac_laws.specs.Fraction.{Fraction};
ghost use Rattle.frac_laws.specs.Rounding.{floor_of, ceiling_of};
ghost use Rattle.fixed_interval.specs.Intervals.{LiesIn, HasEndsUpTo};
ghost use Rattle.fixed_interval.specs.Printing.{most_end, AreEndsUpTo};
ghost use Rattle.model_specs.specs.Rows.{IsPremium};
ghost use Rattle.premium_solver.specs.Quotients.{least_divisor, most_divisor, low_quotient, high_quotient};
ghost use Rattle.premium_solver.specs.Quotients.{AreQuotientsCloseFor, most_quotient};

use fixed_interval::{Interval, Printed};
use thiserror::Error;

const MILLION: i128 = 1_000_000;

// The least lower end of a divisor: 1/32, in units of 2^-64.
const LEAST_DIVISOR: i128 = 1 << 59;

/// A divisor that may be too close to 0: its interval begins below 1/32.
#[derive(Clone, Copy, Debug, PartialEq, Eq, Error)]
#[error("the divisor may be as small as {low} * 2^-64")]
pub struct TooSmall {
    /// Where the interval begins, in units of 2^-64.
    pub low: i128,
}

// The floor of `a * 10^6 / d`. The product itself need not fit 128 bits, so what `a / d` leaves is divided once more.
fn floor_quotient(a: i128, d: i128) -> i128
    requires number { unsigned_abs a ≤ most_end }
    requires least { pos least_divisor ≤ℤ d }
    requires most { d ≤ℤ pos most_divisor }
    ensures value { result ≡ floor_of (a *ℤ pos (10 ^ 6)) d }
    ensures size { unsigned_abs result ≤ most_quotient }
{
    a.div_euclid(d) * MILLION + (a.rem_euclid(d) * MILLION).div_euclid(d)
}

// The ceiling of `a * 10^6 / d`.
fn ceil_quotient(a: i128, d: i128) -> i128
    requires number { unsigned_abs a ≤ most_end }
    requires least { pos least_divisor ≤ℤ d }
    requires most { d ≤ℤ pos most_divisor }
    ensures value { result ≡ ceiling_of (a *ℤ pos (10 ^ 6)) d }
    ensures size { unsigned_abs result ≤ most_quotient }
{
    -floor_quotient(-a, d)
}

/// The quotients of a number of `b` by a number of `p`, in millionths: the least one rounded down, and the greatest one
/// rounded up. It refuses a divisor whose interval begins below 1/32. Takes no memory.
pub fn quotient(b: Interval, p: Interval) -> Result<Printed, TooSmall>
    requires numbers { HasEndsUpTo most_end b }
    requires divisors { HasEndsUpTo most_divisor p }
    ensures too_small { IsErr result ↔ (p.lo <ℤ pos least_divisor) }
    ensures low { IfErr result (λ cause. cause.low ≡ p.lo) }
    ensures lo { IfOk result (λ ends. ends.lo ≡ low_quotient b p) }
    ensures hi { IfOk result (λ ends. ends.hi ≡ high_quotient b p) }
    ensures encloses { IfOk result (λ ends. (x y : Fraction) → LiesIn x b → LiesIn y p
        → IsPremium ends.lo ends.hi x y) }
    ensures ordered { IfOk result (λ ends. ends.lo ≤ℤ ends.hi) }
    ensures close { IfOk result (AreQuotientsCloseFor b p) }
    ensures small { IfOk result (AreEndsUpTo most_quotient) }
{
    if p.lo < LEAST_DIVISOR {
        return Err(TooSmall { low: p.lo });
    }
    Ok(Printed {
        lo: floor_quotient(b.lo, p.lo).min(floor_quotient(b.lo, p.hi)),
        hi: ceil_quotient(b.hi, p.lo).max(ceil_quotient(b.hi, p.hi)),
    })
}
