//! The curves of a product over a month.

ghost use Rattle.std.specs.Prelude.{◌≡◌, ◌<◌, IfOk};
ghost use Rattle.whole_laws.specs.Whole.{greatest_whole, least_whole};
ghost use Rattle.model_specs.specs.MonthNumbers.{curve_numerators, rho};
ghost use Rattle.rate_bounds.specs.MonthRates.{least_rate};
ghost use Rattle.rate_bounds.specs.MonthTables.{AreCurvesUpTo};

use crate::extremes::{greatest, least};
use crate::rates::{least_rate, rho};
use product_model::Product;
use std::alloc::{AllocError, Global};

/// The numbers of a month, per year over `2488320 * den`: `rho` is the greatest sum of the greatest rates of a state's
/// exits, `high` and `low` are the greatest and the least Bernstein coefficient of the interest, and `least` is the
/// least one of all intensities, or 0 where there is no transition.
#[derive(Clone, Copy, Debug, PartialEq, Eq)]
pub struct MonthCurves {
    pub rho: i128,
    pub high: i128,
    pub low: i128,
    pub least: i128,
}

/// The numbers of a month, exactly. Takes no memory.
pub fn month_curves(product: &Product, month: u32) -> MonthCurves
    requires { month < product.now.months }
    ensures rho { result.rho ≡ rho product.now month }
    ensures high { result.high ≡ greatest_whole (curve_numerators product.now.interest month) }
    ensures low { result.low ≡ least_whole (curve_numerators product.now.interest month) }
    ensures least { result.least ≡ least_rate product.now month }
{
    let interest = product.interest().month_bernstein(month);
    MonthCurves {
        rho: rho(product, month),
        high: greatest(&interest),
        low: least(&interest),
        least: least_rate(product, month),
    }
}

/// The numbers of the months of the term, in order.
pub(crate) fn curves_of_months(
    alloc: Global,
    product: &Product,
) -> Result<Vec<MonthCurves>, AllocError>
    ensures { IfOk result (λ curves. AreCurvesUpTo product.now product.now.months curves.items) }
{
    let mut curves = Vec::new(alloc);
    for month in 0..product.months() {
        curves.push(month_curves(product, month))?;
    }
    Ok(curves)
}
