//! The steps of a sojourn payment less a continuous premium.

ghost use Rattle.std.specs.Prelude.{◌≡◌, ◌≤◌, All, IfOk, IfSome, IfNone};
ghost use Rattle.named_numbers.specs.Numbers.{most_months};
ghost use Rattle.model_specs.specs.RecordRules.{IsPayment};
ghost use Rattle.payment_plan.specs.Records.{steps_of};
ghost use Rattle.file_changes.specs.ContinuousAsks.{AreSmallSteps, AreWords};
ghost use Rattle.file_changes.specs.ContinuousCharges as continuous;

use crate::later::steps_from;
use crate::less::steps_before;
use crate::step_sizes::is_small_payment;
use payment_plan::StepAmount;
use std::alloc::{AllocError, Global};

// Steps less an amount a year up to a month; none where a coefficient of them has more than 64 bits.
fn less_until(
    alloc: Global,
    steps: &[StepAmount],
    months: u32,
    until: u32,
    amount: i64,
) -> Result<Option<Vec<StepAmount>>, AllocError>
    requires good { IsPayment months (steps_of steps.now) }
    requires term { months ≤ most_months }
    ensures changed { IfOk result (λ found. IfSome found (λ charged. steps_of charged.items
        ≡ continuous.charged_steps amount months until (steps_of steps.now))) }
    ensures words { IfOk result (λ found. IfSome found (λ charged. All (λ s. AreWords s.c) (steps_of charged.items))) }
    ensures too_large { IfOk result (λ found. IfNone found (¬ All (λ s. AreWords s.c)
        (continuous.charged_steps amount months until (steps_of steps.now)))) }
{
    let Some(mut charged) = steps_before(alloc, steps, until, amount)? else {
        return Ok(None);
    };
    if until < months {
        let Some(later) = steps_from(alloc, steps, until, months)? else {
            return Ok(None);
        };
        charged.extend_from_slice(&later)?;
    }
    Ok(Some(charged))
}

/// Steps less an amount a year up to a month; none where a coefficient of them has more than 64 bits, or they break
/// rule 11.
pub(crate) fn charged_steps(
    alloc: Global,
    steps: &[StepAmount],
    months: u32,
    until: u32,
    amount: i64,
) -> Result<Option<Vec<StepAmount>>, AllocError>
    requires good { IsPayment months (steps_of steps.now) }
    requires term { months ≤ most_months }
    requires some { 1 ≤ until }
    requires until { until ≤ months }
    ensures changed { IfOk result (λ found. IfSome found (λ charged. steps_of charged.items
        ≡ continuous.charged_steps amount months until (steps_of steps.now))) }
    ensures small { IfOk result (λ found. IfSome found (λ charged. AreSmallSteps months (steps_of charged.items))) }
    ensures too_large { IfOk result (λ found. IfNone found (¬ AreSmallSteps months
        (continuous.charged_steps amount months until (steps_of steps.now)))) }
{
    let Some(charged) = less_until(alloc, steps, months, until, amount)? else {
        return Ok(None);
    };
    if is_small_payment(&charged, months) {
        Ok(Some(charged))
    } else {
        Ok(None)
    }
}
