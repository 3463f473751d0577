//! Sojourn payments of all payers.

ghost use Rattle.std.specs.Prelude.{◌≡◌, ◌==◌, IfOk};
ghost use Rattle.payment_plan.specs.Records.{sojourn_of, sojourns_of, pattern_rule_of};
ghost use Rattle.file_changes.specs.ContinuousCharges as charges;

use crate::copies::sojourns;
use payment_plan::{PatternRule, Plan, StepAmount};
use std::alloc::{AllocError, Global};

// Whether one of some sojourns is in a state.
fn has_sojourn(sojourns: &[(usize, Vec<StepAmount>)], state: usize) -> bool
    ensures { result ≡ charges.has_sojourn (sojourns_of sojourns.now) state }
{
    for i in 0..sojourns.len() {
        if sojourns[i].0 == state {
            return true;
        }
    }
    false
}

// A sojourn that pays nothing.
fn zero_sojourn(alloc: Global, state: usize) -> Result<(usize, Vec<StepAmount>), AllocError>
    ensures { IfOk result (λ zero. sojourn_of zero ≡ charges.zero_sojourn state) }
{
    let mut steps = Vec::new(alloc);
    steps.push(StepAmount {
        from: 0,
        c: [0, 0, 0, 0],
    })?;
    Ok((state, steps))
}

/// The sojourns of a plan, and one of nothing for each payer that has none.
pub(crate) fn completed_sojourns(
    alloc: Global,
    plan: &Plan,
    rule: &PatternRule,
) -> Result<Vec<(usize, Vec<StepAmount>)>, AllocError>
    ensures { IfOk result (λ all. sojourns_of all.items
        ≡ charges.completed_sojourns plan.now.sojourns (pattern_rule_of rule.now)) }
{
    let mut all = sojourns(alloc, plan)?;
    for i in 0..rule.payers.len() {
        if !has_sojourn(plan.sojourns(), rule.payers[i]) {
            all.push(zero_sojourn(alloc, rule.payers[i])?)?;
        }
    }
    Ok(all)
}
