//! Steps less a continuous premium.

ghost use Rattle.std.specs.Prelude.{◌≡◌, All, IfOk, IfSome, IfNone, filter, map, nat_lt};
ghost use Rattle.payment_plan.specs.Records.{record_of, steps_of};
ghost use Rattle.file_changes.specs.ContinuousAsks.{AreWords};
ghost use Rattle.file_changes.specs.ContinuousCharges as continuous;

use payment_plan::StepAmount;
use std::alloc::{AllocError, Global};

// A step, less an amount a year; none where its first coefficient then has more than 64 bits.
fn less_step(step: &StepAmount, amount: i64) -> Option<StepAmount>
    ensures changed { IfSome result (λ changed. record_of changed
        ≡ continuous.less_step amount (record_of step.now)) }
    ensures words { IfSome result (λ changed. AreWords changed.c) }
    ensures too_large { IfNone result (¬ AreWords (continuous.less_first amount step.now.c)) }
{
    let [c0, c1, c2, c3] = step.c;
    Some(StepAmount {
        from: step.from,
        c: [c0.checked_sub(amount)?, c1, c2, c3],
    })
}

/// The steps that start before a month, each less an amount a year; none where a coefficient of them has more than 64
/// bits.
pub(crate) fn steps_before(
    alloc: Global,
    steps: &[StepAmount],
    until: u32,
    amount: i64,
) -> Result<Option<Vec<StepAmount>>, AllocError>
    ensures changed { IfOk result (λ found. IfSome found (λ before. steps_of before.items
        ≡ map (continuous.less_step amount) (filter (λ s. nat_lt s.from until) (steps_of steps.now)))) }
    ensures words { IfOk result (λ found. IfSome found (λ before. All (λ s. AreWords s.c) (steps_of before.items))) }
    ensures too_large { IfOk result (λ found. IfNone found (¬ All (λ s. AreWords s.c)
        (map (continuous.less_step amount) (filter (λ s. nat_lt s.from until) (steps_of steps.now))))) }
{
    let mut before = Vec::new(alloc);
    for i in 0..steps.len() {
        if steps[i].from < until {
            match less_step(&steps[i], amount) {
                Some(step) => before.push(step)?,
                None => return Ok(None),
            }
        }
    }
    Ok(Some(before))
}
