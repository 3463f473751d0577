//! The second radius of the payment plan at all dates, in units of 2^-64.

ghost use Rattle.std.specs.Prelude.{◌≡◌, ℕ, suc, ◌^◌, ◌<◌, ◌≤◌, IfOk};
ghost use Rattle.whole_laws.specs.Whole.{list_of};
ghost use Rattle.model_specs.specs.Payments.{payment_plan};
ghost use Rattle.model_specs.specs.Ledgers as ledgers;
ghost use Rattle.ledger_laws.specs.MonthLaws.{ObeysAllMonths};
ghost use Rattle.rate_bounds.specs.MonthTables.{AreBoundsUpTo};
ghost use Rattle.rate_bounds.specs.LedgerSteps.{radius_step, second_step};

use crate::bounds::MonthBounds;
use crate::cells::second_grow_cells;
use crate::lumps::{date_adds, lumps_of};
use crate::table::{kappa_at, pay_at};
use ledger_laws::{radii_stay_small, second_stays_small};
use named_numbers::CELLS_OF_MONTH;
use payment_plan::Which;
use product_model::Product;
use std::alloc::{AllocError, Global};

// The second radius at a month's start, from the first one and itself at the end.
fn month_back(
    product: &Product,
    bounds: &[MonthBounds],
    largest: u128,
    month: u32,
    w: u128,
    second: u128,
) -> u128
    requires rules { ObeysAllMonths product.now }
    requires table { AreBoundsUpTo product.now product.now.months bounds.now }
    requires month { month < product.now.months }
    requires some { 1 ≤ largest }
    requires largest { largest ≤ 2 ^ 56 }
    requires first { (k : ℕ) → k ≤ 32 → radius_step product.now month w k ≤ 2 ^ 40 }
    requires fits { (k : ℕ) → k ≤ 32
        → second_step product.now (payment_plan product.now) largest month w second k ≤ 2 ^ 80 }
    ensures { result ≡ second_step product.now (payment_plan product.now) largest month w second 32 }
{
    let kappa40 = kappa_at(product, bounds, month);
    let pay = pay_at(product, bounds, Which::Benefits, month);
    let adds = date_adds(lumps_of(product, Which::Benefits, month + 1), w, largest);
    second_grow_cells(second + adds, w, kappa40, pay, largest, CELLS_OF_MONTH)
}

/// The second radius at each date before its lumps, from the term to issue, with the first one there.
pub(crate) fn second_radii(
    alloc: Global,
    product: &Product,
    bounds: &[MonthBounds],
    radii: &[u128],
    scale: u32,
) -> Result<Vec<u128>, AllocError>
    requires rules { ObeysAllMonths product.now }
    requires table { AreBoundsUpTo product.now product.now.months bounds.now }
    requires radii { radii.now ≡ list_of (suc product.now.months) (ledgers.radius_before_term product.now) }
    requires scale { scale ≡ ledgers.scale product.now (payment_plan product.now) }
    requires most { scale ≤ 56 }
    ensures { IfOk result (λ seconds. seconds.items
        ≡ list_of (suc product.now.months)
        (ledgers.second_before_term product.now (payment_plan product.now) (2 ^ scale))) }
{
    radii_stay_small();
    second_stays_small();
    let months = product.months();
    let largest = 2u128.pow(scale);
    let mut seconds = Vec::new(alloc);
    let mut second = 0;
    for back in 0..months {
        seconds.push(second)?;
        let w = radii[back as usize];
        second = month_back(product, bounds, largest, months - 1 - back, w, second);
    }
    seconds.push(second)?;
    Ok(seconds)
}
