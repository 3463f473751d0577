//! Products with a changed basis.

ghost use Rattle.std.specs.Prelude.{◌≡◌, ◌^◌, ◌≤◌, pos, ◌*ℤ◌, IfOk, IfSome, IfNone};
ghost use Rattle.named_numbers.specs.Numbers.{most_denominator};
ghost use Rattle.file_changes.specs.Asks.{HasSmallCurves};
ghost use Rattle.file_changes.specs.BasisChanges as basis;

use crate::assembly::with_basis;
use crate::curves::changed_curve;
use crate::finer::Denominator;
use crate::rates::{Factors, changed_rates};
use product_model::Product;
use std::alloc::{AllocError, Global};

/// A product over a finer denominator, with `units` over the old one's power added to the force of interest, and its
/// intensities times their factors; none where a coefficient has more than 64 bits or breaks rule 9.
pub(crate) fn with_finer_basis(
    alloc: Global,
    product: &Product,
    finer: Denominator,
    places: u32,
    units: i128,
    factors: &Factors,
) -> Result<Option<Product>, AllocError>
    requires den { finer.den ≡ basis.finer places product.now }
    requires power { finer.power ≡ 10 ^ places }
    requires others { factors.now.others ≡ pos (10 ^ places) }
    requires small { finer.den ≤ most_denominator }
    ensures changed { IfOk result (λ found. IfSome found (λ changed. changed ≡ basis.with_finer_basis places
        (units *ℤ pos product.now.den) factors.now.from.now factors.now.to.now factors.now.factor product.now)) }
    ensures small { IfOk result (λ found. IfSome found (λ changed. HasSmallCurves changed)) }
    ensures too_large { IfOk result (λ found. IfNone found (¬ HasSmallCurves (basis.with_finer_basis places
        (units *ℤ pos product.now.den) factors.now.from.now factors.now.to.now factors.now.factor product.now))) }
{
    let power = i128::from(finer.power);
    let Some(interest) = changed_curve(alloc, product.interest(), power, units, product.den())?
    else {
        return Ok(None);
    };
    let Some(rates) = changed_rates(alloc, product, factors)? else {
        return Ok(None);
    };
    Ok(Some(with_basis(alloc, product, finer.den as i64, interest, rates)?))
}
