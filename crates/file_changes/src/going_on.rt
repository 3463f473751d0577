//! Payments that go on in whole numbers where a continuous premium ends.

ghost use Rattle.std.specs.Prelude.{◌<◌, ◌≤◌, All, IsTrue, IsFalse};
ghost use Rattle.named_numbers.specs.Numbers.{most_months};
ghost use Rattle.model_specs.specs.RecordRules.{IsPayment};
ghost use Rattle.payment_plan.specs.Records.{sojourn_of, sojourns_of};
ghost use Rattle.payment_plan.specs.Tables.{is_payer};
ghost use Rattle.file_changes.specs.ContinuousAsks.{GoesOnWhole, PayersGoOnWhole};

use crate::charged_sojourns::pays;
use crate::later::goes_on_whole;
use payment_plan::{PatternRule, StepAmount};
use product_model::Product;

// Whether a sojourn goes on in whole coefficients where the premium ends, if its state pays the premium.
fn is_whole(paid: &(usize, Vec<StepAmount>), rule: &PatternRule, months: u32) -> bool
    requires good { IsPayment months (sojourn_of paid.now).steps }
    requires within { rule.now.until < months }
    requires term { months ≤ most_months }
    ensures whole { IsTrue result → IsTrue (is_payer rule.now.payers.items (sojourn_of paid.now).state)
        → GoesOnWhole rule.now.until (sojourn_of paid.now).steps }
    ensures payer { IsFalse result → IsTrue (is_payer rule.now.payers.items (sojourn_of paid.now).state) }
    ensures not_whole { IsFalse result → ¬ GoesOnWhole rule.now.until (sojourn_of paid.now).steps }
{
    !pays(rule, paid.0) || goes_on_whole(&paid.1, rule.until, months)
}

// Whether all payers do.
fn all_are_whole(sojourns: &[(usize, Vec<StepAmount>)], rule: &PatternRule, months: u32) -> bool
    requires good { All (λ s. IsPayment months s.steps) (sojourns_of sojourns.now) }
    requires within { rule.now.until < months }
    requires term { months ≤ most_months }
    ensures whole { IsTrue result → All (λ s. IsTrue (is_payer rule.now.payers.items s.state)
        → GoesOnWhole rule.now.until s.steps) (sojourns_of sojourns.now) }
    ensures not_whole { IsFalse result → ¬ All (λ s. IsTrue (is_payer rule.now.payers.items s.state)
        → GoesOnWhole rule.now.until s.steps) (sojourns_of sojourns.now) }
{
    for i in 0..sojourns.len() {
        if !is_whole(&sojourns[i], rule, months) {
            return false;
        }
    }
    true
}

/// Whether the sojourn payments of all payers go on in whole coefficients where the premium ends, if that is before the
/// term.
pub(crate) fn payers_go_on_whole(product: &Product) -> bool
    ensures whole { IsTrue result → PayersGoOnWhole product.now }
    ensures not_whole { IsFalse result → ¬ PayersGoOnWhole product.now }
{
    let plan = product.plan();
    let rule = plan.pattern();
    let months = product.months();
    if rule.until < months {
        all_are_whole(plan.sojourns(), rule, months)
    } else {
        true
    }
}
