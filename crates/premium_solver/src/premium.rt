//! The premium that makes both values equal.

ghost use Rattle.std.specs.Prelude.{◌≡◌, ◌≢◌, ℕ, ◌+◌, ◌*◌, ◌^◌, ◌<◌, ◌≤◌, max, ℤ, IfOk, IfErr};
ghost use Rattle.named_numbers.specs.Numbers.{cells_of_month, least_degree, highest_degree};
ghost use Rattle.model_specs.specs.Payments.{payment_plan, pattern_plan};
ghost use Rattle.model_specs.specs.Stretches.{cost};
ghost use Rattle.thiele_backward.specs.Results.{IsValueAtIssue, AreConstantMonths};
ghost use Rattle.premium_solver.specs.Premiums.{IsPremiumTable, IsTooSmall, IsLargePattern};

use crate::quotients::{TooSmall, quotient};
use fixed_interval::{PremiumTable, Valued};
use payment_plan::Which;
use rate_bounds::Admitted;
use std::alloc::{AllocError, Global};
use std::sync::ledger::Ledger;
use taylor_step::Steps;
use thiele_backward::value;
use thiserror::Error;

/// Why there is no premium.
#[derive(Clone, Copy, Debug, PartialEq, Eq, Error)]
pub enum PremiumError {
    /// The interval of the pattern's value begins below 1/32: at `low`, in units of 2^-64.
    #[error("the pattern's value may be as small as {low} * 2^-64")]
    TooSmall { low: i128 },
    #[error("out of memory")]
    Memory,
}

impl From<AllocError> for PremiumError {
    ghost use Rattle.premium_solver.specs.declared.premium.PremiumError.TheVariants.{Memory};

    ghost from_gives = { λ _ e. e ≡ Memory };

    fn from(_: AllocError) -> Self {
        PremiumError::Memory
    }
}

impl From<TooSmall> for PremiumError {
    ghost use Rattle.premium_solver.specs.declared.premium.PremiumError.TheVariants.{TooSmall as Small};

    ghost from_gives = { λ cause e. e ≡ Small cause.low };

    fn from(cause: TooSmall) -> Self {
        PremiumError::TooSmall { low: cause.low }
    }
}

// The table of both values.
fn table_of(adm: &Admitted, benefits: &Valued, pattern: &Valued) -> Result<PremiumTable, TooSmall>
    requires benefits { IsValueAtIssue adm.now (payment_plan adm.now) benefits.now }
    requires pattern { IsValueAtIssue adm.now (pattern_plan adm.now) pattern.now }
    ensures table { IfOk result (IsPremiumTable adm.now) }
    ensures too_small { IfErr result (λ cause. IsTooSmall adm.now cause.low) }
    ensures degree { IfOk result (λ t. t.degree ≡ max benefits.now.degree pattern.now.degree) }
{
    // Of an admitted product the pattern's value is small.
    let _product = adm.product();
    let premium = quotient(benefits.interval, pattern.interval)?;
    Ok(PremiumTable {
        degree: benefits.degree.max(pattern.degree),
        benefits: benefits.interval.printed(),
        pattern: pattern.interval.printed(),
        premium,
    })
}

/// The premium that makes the value of the pattern that of the benefits. It refuses a pattern whose value may be below
/// 1/32. It takes the steps of the values of both plans, and the memory of one value after the other.
pub fn solve<L: Ledger>(
    alloc: Global,
    adm: &Admitted,
    steps: &mut Steps<L>,
) -> Result<PremiumTable, PremiumError>
    requires { steps.old + 2 * (cells_of_month * adm.now.months) < 2 ^ 63 }
    ensures table { IfOk result (IsPremiumTable adm.now) }
    ensures constant { AreConstantMonths adm.now (payment_plan adm.now)
        → IfOk result (λ t. t.degree ≡ least_degree) }

    // When the pattern is refused, and when it is not.
    ensures too_small { (low : ℤ) → result ≡ Err (PremiumError.TooSmall low) → IsTooSmall adm.now low }
    ensures large { (n : ℕ) → highest_degree ≤ n → IsLargePattern adm.now n
        → (low : ℤ) → result ≢ Err (PremiumError.TooSmall low) }

    // Want of memory may come before the second plan.
    ensures count { result ≢ Err PremiumError.Memory
        → steps.new ≡ steps.old + cost adm.now (payment_plan adm.now) + cost adm.now (pattern_plan adm.now) }
    ensures count_at_most { steps.new
        ≤ steps.old + cost adm.now (payment_plan adm.now) + cost adm.now (pattern_plan adm.now) }
{
    let benefits = value(alloc, adm, Which::Benefits, steps)?;
    let pattern = value(alloc, adm, Which::Pattern, steps)?;
    Ok(table_of(adm, &benefits, &pattern)?)
}
