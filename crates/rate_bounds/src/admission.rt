//! Admission of products.

ghost use Rattle.std.specs.Prelude.{◌≡◌, IfOk, Some, None};
ghost use Rattle.model_specs.specs.ValuationRules.{IsAdmissible, first_broken};
ghost use Rattle.rate_bounds.specs.Admissions.{KeepsLedgers};
ghost use Rattle.rule_breaks.specs.Breaks.{break_of};
ghost use Rattle.rate_bounds.specs.Breaks.{broken_by_month};
ghost use Rattle.rate_bounds.specs.MonthTables.{AreCurvesUpTo};
ghost use Rattle.rate_bounds.specs.declared.admission.AdmitError.TheVariants.{Memory};
ghost use Rattle.rule_breaks.specs.declared.breaks.RuleBreak as breaks;

use crate::admitted::Admitted;
use crate::curves::{MonthCurves, curves_of_months};
use crate::first_month::broken_by_month;
use crate::ledgers::{Ledgers, ledgers_of};
use crate::plan_bound::bound1024;
use crate::table::bounds_of_months;
use named_numbers::MOST_BOUND;
use payment_plan::Which;
use product_model::Product;
use rule_breaks::RuleBreak;
use std::alloc::{AllocError, Global};
use thiserror::Error;

/// Why a product is not admitted.
#[derive(Clone, Copy, Debug, PartialEq, Eq, Error)]
pub enum AdmitError {
    /// The first broken one of rules 15 to 18.
    #[error("rule {rule} is broken at place {place}", rule = .0.rule, place = .0.place)]
    Rule(RuleBreak),
    #[error("out of memory")]
    Memory,
}

impl From<AllocError> for AdmitError {
    ghost from_gives = { λ _ e. e ≡ Memory };

    fn from(_: AllocError) -> Self {
        AdmitError::Memory
    }
}

// The ledgers of a product that obeys rules 15 to 17 in each month.
fn ledgers_by_rule_18(
    alloc: Global,
    product: &Product,
    curves: &[MonthCurves],
) -> Result<Ledgers, AdmitError>
    requires rules { broken_by_month product.now ≡ None }
    requires numbers { AreCurvesUpTo product.now product.now.months curves.now }
    ensures ok { IfOk result (KeepsLedgers product.now) }
    ensures rule { (broken : breaks.RuleBreak) → result ≡ Err (AdmitError.Rule broken)
        → first_broken product.now ≡ Some (break_of broken) }
{
    let months = bounds_of_months(alloc, product, curves)?;
    let bound = bound1024(product, &months, Which::Benefits);
    if bound > MOST_BOUND {
        return Err(AdmitError::Rule(RuleBreak { rule: 18, place: 0 }));
    }
    Ok(ledgers_of(alloc, product, months, bound)?)
}

// The ledgers of a product that obeys rules 15 to 18.
fn ledgers_by_rules(alloc: Global, product: &Product) -> Result<Ledgers, AdmitError>
    ensures ok { IfOk result (KeepsLedgers product.now) }
    ensures rule { (broken : breaks.RuleBreak) → result ≡ Err (AdmitError.Rule broken)
        → first_broken product.now ≡ Some (break_of broken) }
{
    let curves = curves_of_months(alloc, product)?;
    match broken_by_month(product, &curves) {
        Some(broken) => Err(AdmitError::Rule(broken)),
        None => ledgers_by_rule_18(alloc, product, &curves),
    }
}

/// Admits a product that obeys rules 15 to 18, and takes the ledgers of its valuation. `Memory` may come at any time.
pub fn admit(alloc: Global, product: Product) -> Result<Admitted, AdmitError>
    ensures ok { IfOk result (λ a. a ≡ product) }
    ensures admissible { IfOk result (λ _. IsAdmissible product) }
    ensures rule { (broken : breaks.RuleBreak) → result ≡ Err (AdmitError.Rule broken)
        → first_broken product ≡ Some (break_of broken) }
{
    match ledgers_by_rules(alloc, &product) {
        Ok(ledgers) => Ok(Admitted::of(product, ledgers)),
        Err(cause) => Err(cause),
    }
}
