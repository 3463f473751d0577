//! The bounds of all months.

ghost use Rattle.std.specs.Prelude.{◌≡◌, ◌*◌, ◌^◌, ◌<◌, ◌≤◌, IfOk};
ghost use Rattle.named_numbers.specs.Numbers.{most_months};
ghost use Rattle.model_specs.specs.Growth.{kappa40, pay};
ghost use Rattle.ledger_laws.specs.MonthLaws.{ObeysAllMonths};
ghost use Rattle.rate_bounds.specs.MonthPay.{plan_named};
ghost use Rattle.rate_bounds.specs.MonthTables.{AreBoundsUpTo, AreCurvesUpTo};

use crate::bounds::{MonthBounds, bounds_by};
use crate::curves::MonthCurves;
use ledger_laws::{month_numbers_are_small, pay_is_small};
use payment_plan::Which;
use product_model::Product;
use std::alloc::{AllocError, Global};

/// The bounds of the months of the term, in order, from their numbers.
pub(crate) fn bounds_of_months(
    alloc: Global,
    product: &Product,
    curves: &[MonthCurves],
) -> Result<Vec<MonthBounds>, AllocError>
    requires rules { ObeysAllMonths product.now }
    requires numbers { AreCurvesUpTo product.now product.now.months curves.now }
    ensures { IfOk result (λ bounds. AreBoundsUpTo product.now product.now.months bounds.items) }
{
    let mut bounds = Vec::new(alloc);
    for month in 0..product.months() {
        bounds.push(bounds_by(product, curves[month as usize], month))?;
    }
    Ok(bounds)
}

/// The growth of a cell of a month.
pub(crate) fn kappa_at(product: &Product, bounds: &[MonthBounds], month: u32) -> u64
    requires rules { ObeysAllMonths product.now }
    requires table { AreBoundsUpTo product.now product.now.months bounds.now }
    requires month { month < product.now.months }
    ensures value { result ≡ kappa40 product.now month }
    ensures most { result ≤ 2 ^ 28 }
    ensures term { month < most_months }
{
    month_numbers_are_small();
    let _months = product.months();
    bounds[month as usize].kappa40
}

/// What a cell of a month adds to the bound ledger of a plan.
pub(crate) fn pay_at(product: &Product, bounds: &[MonthBounds], which: Which, month: u32) -> u128
    requires rules { ObeysAllMonths product.now }
    requires table { AreBoundsUpTo product.now product.now.months bounds.now }
    requires month { month < product.now.months }
    ensures value { result ≡ pay product.now (plan_named which product.now) month }
    ensures most { result ≤ 144 * 10 ^ 12 }
{
    pay_is_small();
    let _months = product.months();
    match which {
        Which::Benefits => bounds[month as usize].pay1024,
        Which::Pattern => bounds[month as usize].pattern1024,
    }
}
