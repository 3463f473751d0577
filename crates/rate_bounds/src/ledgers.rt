//! The ledgers of a product, taken once.

ghost use Rattle.std.specs.Prelude.{◌≡◌, ◌^◌, ◌≤◌, IfOk};
ghost use Rattle.model_specs.specs.Payments.{payment_plan};
ghost use Rattle.model_specs.specs.Ledgers as model;
ghost use Rattle.ledger_laws.specs.MonthLaws.{ObeysAllMonths};
ghost use Rattle.rate_bounds.specs.MonthPay.{plan_named};
ghost use Rattle.rate_bounds.specs.MonthTables.{AreBoundsUpTo};
ghost use Rattle.rate_bounds.specs.Admissions.{AreLedgers};

use crate::bounds::MonthBounds;
use crate::plan_bound::{bound1024, plan_scale};
use crate::radii::{radii_back, radii_forward};
use crate::second_radii::second_radii;
use ledger_laws::pattern_bound_stays_small;
use payment_plan::Which;
use product_model::Product;
use std::alloc::{AllocError, Global};

/// The bound of a plan in 1/1024 minor units, and its scale.
#[derive(Clone, Copy)]
pub(crate) struct PlanBound {
    pub bound1024: u128,
    pub scale: u32,
}

/// The bounds of all months, the bounds of the payment plan and of the pattern, the backward radii and the second radii
/// from the term on, and the forward radii from issue on.
#[derive(Drop)]
pub(crate) struct Ledgers {
    pub months: Vec<MonthBounds>,
    pub benefits: PlanBound,
    pub pattern: PlanBound,
    pub radii: Vec<u128>,
    pub seconds: Vec<u128>,
    pub forwards: Vec<u128>,
}

// The bound of the premium pattern, which always obeys rule 18.
fn pattern_bound(product: &Product, months: &[MonthBounds]) -> PlanBound
    requires rules { ObeysAllMonths product.now }
    requires table { AreBoundsUpTo product.now product.now.months months.now }
    ensures bound { result.bound1024 ≡ model.bound1024 product.now (plan_named Which.Pattern product.now) }
    ensures scale { result.scale ≡ model.scale product.now (plan_named Which.Pattern product.now) }
{
    pattern_bound_stays_small();
    let _months = product.months();
    let bound1024 = bound1024(product, months, Which::Pattern);
    PlanBound {
        bound1024,
        scale: plan_scale(bound1024),
    }
}

/// The ledgers of a product whose payment plan has a bound that obeys rule 18.
pub(crate) fn ledgers_of(
    alloc: Global,
    product: &Product,
    months: Vec<MonthBounds>,
    bound: u128,
) -> Result<Ledgers, AllocError>
    requires rules { ObeysAllMonths product.now }
    requires table { AreBoundsUpTo product.now product.now.months months.items }
    requires bound { bound ≡ model.bound1024 product.now (payment_plan product.now) }
    requires rule_18 { bound ≤ 2 ^ 66 }
    ensures { IfOk result (AreLedgers product.now) }
{
    let pattern = pattern_bound(product, &months);
    let benefits = PlanBound {
        bound1024: bound,
        scale: plan_scale(bound),
    };
    let radii = radii_back(alloc, product, &months)?;
    let seconds = second_radii(alloc, product, &months, &radii, benefits.scale)?;
    let forwards = radii_forward(alloc, product, &months)?;
    Ok(Ledgers {
        months,
        benefits,
        pattern,
        radii,
        seconds,
        forwards,
    })
}
