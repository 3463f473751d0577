//! The radii of a valuation at all dates, in units of 2^-64.

ghost use Rattle.std.specs.Prelude.{◌≡◌, ℕ, suc, ◌^◌, ◌<◌, ◌≤◌, IfOk};
ghost use Rattle.whole_laws.specs.Whole.{list_of};
ghost use Rattle.model_specs.specs.Ledgers as ledgers;
ghost use Rattle.ledger_laws.specs.MonthLaws.{ObeysAllMonths};
ghost use Rattle.rate_bounds.specs.MonthTables.{AreBoundsUpTo};
ghost use Rattle.rate_bounds.specs.LedgerSteps.{radius_step};

use crate::bounds::MonthBounds;
use crate::cells::grow_cells;
use crate::table::kappa_at;
use ledger_laws::radii_stay_small;
use named_numbers::{CELL_ROUNDING, CELLS_OF_MONTH};
use product_model::Product;
use std::alloc::{AllocError, Global};

// A radius at the other end of a month.
fn over_month(product: &Product, bounds: &[MonthBounds], month: u32, w: u128) -> u128
    requires rules { ObeysAllMonths product.now }
    requires table { AreBoundsUpTo product.now product.now.months bounds.now }
    requires month { month < product.now.months }
    requires fits { (k : ℕ) → k ≤ 32 → radius_step product.now month w k ≤ 2 ^ 40 }
    ensures { result ≡ radius_step product.now month w 32 }
{
    grow_cells(
        w,
        kappa_at(product, bounds, month),
        CELL_ROUNDING,
        CELLS_OF_MONTH,
    )
}

/// The backward radius at each date, from the term to issue.
pub(crate) fn radii_back(
    alloc: Global,
    product: &Product,
    bounds: &[MonthBounds],
) -> Result<Vec<u128>, AllocError>
    requires rules { ObeysAllMonths product.now }
    requires table { AreBoundsUpTo product.now product.now.months bounds.now }
    ensures { IfOk result (λ radii. radii.items
        ≡ list_of (suc product.now.months) (ledgers.radius_before_term product.now)) }
{
    radii_stay_small();
    let months = product.months();
    let mut radii = Vec::new(alloc);
    let mut w = 0;
    for back in 0..months {
        radii.push(w)?;
        w = over_month(product, bounds, months - 1 - back, w);
    }
    radii.push(w)?;
    Ok(radii)
}

/// The forward radius at each date, from issue to the term.
pub(crate) fn radii_forward(
    alloc: Global,
    product: &Product,
    bounds: &[MonthBounds],
) -> Result<Vec<u128>, AllocError>
    requires rules { ObeysAllMonths product.now }
    requires table { AreBoundsUpTo product.now product.now.months bounds.now }
    ensures { IfOk result (λ radii. radii.items
        ≡ list_of (suc product.now.months) (ledgers.radius_forward product.now)) }
{
    radii_stay_small();
    let months = product.months();
    let mut radii = Vec::new(alloc);
    let mut w = 0;
    for month in 0..months {
        radii.push(w)?;
        w = over_month(product, bounds, month, w);
    }
    radii.push(w)?;
    Ok(radii)
}
