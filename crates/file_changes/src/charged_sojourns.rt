//! Sojourn payments less a continuous premium.

ghost use Rattle.std.specs.Prelude.{◌≡◌, ◌≤◌, All, IfOk, IfSome, IfNone, map};
ghost use Rattle.named_numbers.specs.Numbers.{most_months};
ghost use Rattle.model_specs.specs.RecordRules.{IsPayment, IsBoundedPayment};
ghost use Rattle.payment_plan.specs.Records.{pattern_rule_of, sojourn_of, sojourns_of, steps_of};
ghost use Rattle.payment_plan.specs.Tables.{is_payer};
ghost use Rattle.file_changes.specs.ContinuousAsks.{AreSmallSojourns, AreSmallSteps, AreWords};
ghost use Rattle.file_changes.specs.ContinuousCharges as continuous;

use crate::charged_steps::charged_steps;
use crate::copies::sojourn;
use payment_plan::{PatternRule, StepAmount};
use std::alloc::{AllocError, Global};

// The coefficients are read so that a proof knows of their type.
fn has_words(step: &StepAmount) -> i64
    ensures { AreWords step.now.c }
{
    let [c0, _c1, _c2, _c3] = step.c;
    c0
}

// The coefficients of steps are numbers of 64 bits, as their type says. A proof learns it from reading each.
fn have_words(steps: &[StepAmount])
    ensures { All (λ s. AreWords s.c) (steps_of steps.now) }
{
    for i in 0..steps.len() {
        let _first = has_words(&steps[i]);
    }
}

// Whether a state pays the premium.
pub(crate) fn pays(rule: &PatternRule, state: usize) -> bool
    ensures { result ≡ is_payer rule.now.payers.items state }
{
    rule.payers.contains(&state)
}

// A sojourn less an amount a year up to the premium's end, where its state pays the premium; none where a coefficient
// has more than 64 bits, or it breaks rule 11.
fn charged_sojourn(
    alloc: Global,
    paid: &(usize, Vec<StepAmount>),
    rule: &PatternRule,
    months: u32,
    amount: i64,
) -> Result<Option<(usize, Vec<StepAmount>)>, AllocError>
    requires good { IsPayment months (sojourn_of paid.now).steps }
    requires bounded { IsBoundedPayment months (sojourn_of paid.now).steps }
    requires term { months ≤ most_months }
    requires some { 1 ≤ rule.now.until }
    requires until { rule.now.until ≤ months }
    ensures changed { IfOk result (λ found. IfSome found (λ charged. sojourn_of charged
        ≡ continuous.charged_sojourn amount months (pattern_rule_of rule.now) (sojourn_of paid.now))) }
    ensures small { IfOk result (λ found. IfSome found (λ charged. AreSmallSteps months (sojourn_of charged).steps)) }
    ensures too_large { IfOk result (λ found. IfNone found (¬ AreSmallSteps months
        (continuous.charged_sojourn amount months (pattern_rule_of rule.now) (sojourn_of paid.now)).steps)) }
{
    if pays(rule, paid.0) {
        match charged_steps(alloc, &paid.1, months, rule.until, amount)? {
            Some(steps) => Ok(Some((paid.0, steps))),
            None => Ok(None),
        }
    } else {
        have_words(&paid.1);
        Ok(Some(sojourn(alloc, paid)?))
    }
}

/// Sojourns, each less an amount a year up to the premium's end, where its state pays the premium; none where a
/// coefficient of one has more than 64 bits, or one breaks rule 11.
pub(crate) fn charged_sojourns(
    alloc: Global,
    sojourns: &[(usize, Vec<StepAmount>)],
    rule: &PatternRule,
    months: u32,
    amount: i64,
) -> Result<Option<Vec<(usize, Vec<StepAmount>)>>, AllocError>
    requires good { All (λ s. IsPayment months s.steps) (sojourns_of sojourns.now) }
    requires bounded { All (λ s. IsBoundedPayment months s.steps) (sojourns_of sojourns.now) }
    requires term { months ≤ most_months }
    requires some { 1 ≤ rule.now.until }
    requires until { rule.now.until ≤ months }
    ensures changed { IfOk result (λ found. IfSome found (λ charged. sojourns_of charged.items
        ≡ map (continuous.charged_sojourn amount months (pattern_rule_of rule.now)) (sojourns_of sojourns.now))) }
    ensures small { IfOk result (λ found. IfSome found (λ charged.
        AreSmallSojourns months (sojourns_of charged.items))) }
    ensures too_large { IfOk result (λ found. IfNone found (¬ AreSmallSojourns months
        (map (continuous.charged_sojourn amount months (pattern_rule_of rule.now)) (sojourns_of sojourns.now)))) }
{
    let mut charged = Vec::new(alloc);
    for i in 0..sojourns.len() {
        match charged_sojourn(alloc, &sojourns[i], rule, months, amount)? {
            Some(sojourn) => charged.push(sojourn)?,
            None => return Ok(None),
        }
    }
    Ok(Some(charged))
}
