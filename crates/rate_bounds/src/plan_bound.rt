//! The bound ledger of a plan.

ghost use Rattle.std.specs.Prelude.{◌≡◌, ◌^◌, ◌<◌, ◌≤◌};
ghost use Rattle.model_specs.specs.Ledgers as ledgers;
ghost use Rattle.model_specs.specs.RecordRules.{IsWellFormed};
ghost use Rattle.frac_laws.specs.Ledger.{scale_of_bound};
ghost use Rattle.ledger_laws.specs.MonthLaws.{ObeysAllMonths};
ghost use Rattle.rate_bounds.specs.MonthPay.{plan_named};
ghost use Rattle.rate_bounds.specs.MonthTables.{AreBoundsUpTo};
ghost use Rattle.rate_bounds.specs.LedgerSteps.{bound_step};

use crate::bounds::MonthBounds;
use crate::cells::grow_cells;
use crate::lumps::greatest_lump;
use crate::sums::greatest_sum;
use crate::table::{kappa_at, pay_at};
use ledger_bounds::scale_of;
use ledger_laws::{bound_never_falls, pattern_bound_stays_small, plan_bound_stays_small};
use named_numbers::{CELLS_OF_MONTH, PAY_UNIT};
use payment_plan::Which;
use product_model::Product;

// The ledger at a month's start, from its value at the end before that date's lumps.
fn month_back(
    product: &Product,
    bounds: &[MonthBounds],
    which: Which,
    month: u32,
    bound: u128,
) -> u128
    requires rules { ObeysAllMonths product.now }
    requires table { AreBoundsUpTo product.now product.now.months bounds.now }
    requires month { month < product.now.months }
    requires fits { bound_step product.now (plan_named which product.now) month bound 32 ≤ 2 ^ 80 }
    ensures { result ≡ bound_step product.now (plan_named which product.now) month bound 32 }
{
    let kappa40 = kappa_at(product, bounds, month);
    let pay = pay_at(product, bounds, which, month);
    let lump = PAY_UNIT * u128::from(greatest_lump(product, which, month + 1));
    grow_cells(bound + lump, kappa40, pay, CELLS_OF_MONTH)
}

/// The bound of a plan in 1/1024 minor units: from the term to issue, lumps of a date before the cells of the month
/// that ends there, and those of date 0 last.
pub(crate) fn bound1024(product: &Product, bounds: &[MonthBounds], which: Which) -> u128
    requires rules { ObeysAllMonths product.now }
    requires table { AreBoundsUpTo product.now product.now.months bounds.now }
    ensures value { result ≡ ledgers.bound1024 product.now (plan_named which product.now) }
    ensures lawful { IsWellFormed product.now }
{
    bound_never_falls();
    plan_bound_stays_small();
    pattern_bound_stays_small();
    let months = product.months();
    let mut bound = PAY_UNIT * greatest_sum(product, which);
    for back in 0..months {
        bound = month_back(product, bounds, which, months - 1 - back, bound);
    }
    bound + PAY_UNIT * u128::from(greatest_lump(product, which, 0))
}

/// The scale of a bound that obeys rule 18.
pub(crate) fn plan_scale(bound1024: u128) -> u32
    requires { bound1024 ≤ 2 ^ 66 }
    ensures value { result ≡ scale_of_bound bound1024 }
    ensures most { result ≤ 56 }
{
    scale_of(bound1024).unwrap()
}
