//! The bounds of a month.

ghost use Rattle.std.specs.Prelude.{◌≡◌, ◌<◌, pos};
ghost use Rattle.model_specs.specs.Payments.{payment_plan, pattern_plan};
ghost use Rattle.model_specs.specs.MonthNumbers.{rho, iota, nu};
ghost use Rattle.model_specs.specs.Growth.{kappa40, pay};
ghost use Rattle.ledger_laws.specs.MonthLaws.{ObeysMonthRules};
ghost use Rattle.rate_bounds.specs.MonthTables.{AreBounds, AreCurves};

use crate::curves::{MonthCurves, month_curves};
use crate::growth::{iota, kappa40, nu};
use crate::pay::pay1024;
use crate::rates::month_unit;
use ledger_laws::month_numbers_are_small;
use payment_plan::Which;
use product_model::Product;

/// The bounds of a month. `rho` is the greatest sum of the rates of a state's exits, `iota` the greatest size of a
/// Bernstein coefficient of the interest, and `nu` how far the least of them is below 0: a year, over `2488320 * den`.
/// `kappa40` is how much an error grows over a cell, in units of 2^-40. `pay1024` and `pattern1024` are what a cell may
/// add to the bound ledger of the payment plan and of the premium pattern, in 1/1024 minor units.
#[derive(Clone, Copy, Debug, PartialEq, Eq)]
pub struct MonthBounds {
    pub rho: i128,
    pub iota: i128,
    pub nu: i128,
    pub kappa40: u64,
    pub pay1024: u128,
    pub pattern1024: u128,
}

/// The bounds of a month from its numbers, where rules 15 to 17 hold.
pub(crate) fn bounds_by(product: &Product, curves: MonthCurves, month: u32) -> MonthBounds
    requires month { month < product.now.months }
    requires rules { ObeysMonthRules product.now month }
    requires numbers { AreCurves product.now month curves }
    ensures { AreBounds product.now month result }
{
    month_numbers_are_small();
    let unit = month_unit(product);
    MonthBounds {
        rho: curves.rho,
        iota: iota(curves) as i128,
        nu: nu(curves) as i128,
        kappa40: kappa40(curves, unit),
        pay1024: pay1024(product, Which::Benefits, month),
        pattern1024: pay1024(product, Which::Pattern, month),
    }
}

/// The bounds of a month in which rules 15 to 17 hold. Takes no memory.
pub fn month_bounds(product: &Product, month: u32) -> MonthBounds
    requires month { month < product.now.months }
    requires rules { ObeysMonthRules product.now month }
    ensures rho { result.rho ≡ rho product.now month }
    ensures iota { result.iota ≡ pos (iota product.now month) }
    ensures nu { result.nu ≡ pos (nu product.now month) }
    ensures kappa40 { result.kappa40 ≡ kappa40 product.now month }
    ensures pay { result.pay1024 ≡ pay product.now (payment_plan product.now) month }
    ensures pattern { result.pattern1024 ≡ pay product.now (pattern_plan product.now) month }
{
    bounds_by(product, month_curves(product, month), month)
}
