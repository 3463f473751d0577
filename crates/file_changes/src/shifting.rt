//! A force of interest that is shifted, and an intensity that is multiplied.

ghost use Rattle.std.specs.Prelude.{◌≡◌, ℕ, IfOk};
ghost use Rattle.curve_pieces.specs.BrokenRules.{IsFirstBroken};
ghost use Rattle.file_changes.specs.Asks.{ShiftAsks, MultiplyAsks};
ghost use Rattle.file_changes.specs.BasisChanges.{shifted, multiplied};
ghost use Rattle.file_changes.specs.declared.breaks.ChangeBreak as breaks;

use crate::basis::with_finer_basis;
use crate::breaks::{ChangeBreak, ChangeError};
use crate::finer::finer;
use crate::rates::{Factors, has_transition};
use product_model::Product;
use std::alloc::Global;

/// The product with `units / 10^places` a year added to its force of interest, over a denominator that is `10^places`
/// times as great. It is refused by the first part that is broken: 1, the denominator is above 10^12; 2, a coefficient
/// of a curve has more than 64 bits or breaks rule 9. It may break rules 15 to 18.
pub fn shift(
    alloc: Global,
    product: &Product,
    units: i128,
    places: u32,
) -> Result<Product, ChangeError>
    ensures ok { IfOk result (λ changed. changed ≡ shifted units places product.now) }
    ensures keeps { IfOk result (λ _. (part : ℕ) → ShiftAsks units places product.now part) }
    ensures refused { (broken : breaks.ChangeBreak) → result ≡ Err (ChangeError.Change broken)
        → IsFirstBroken (ShiftAsks units places product.now) broken.part }
{
    let Some(finer) = finer(product, places) else {
        return Err(ChangeError::Change(ChangeBreak { part: 1 }));
    };
    let power = i128::from(finer.power);
    let factors = Factors {
        from: &[],
        to: &[],
        factor: power,
        others: power,
    };
    match with_finer_basis(alloc, product, finer, places, units, &factors)? {
        Some(changed) => Ok(changed),
        None => Err(ChangeError::Change(ChangeBreak { part: 2 })),
    }
}

/// The product with the intensity of the transition between two named states taken `units / 10^places` times, over a
/// denominator that is `10^places` times as great. It is refused by the first part that is broken: 1, the denominator
/// is above 10^12; 2, a coefficient of a curve has more than 64 bits or breaks rule 9; 3, there is no such transition.
/// It may break rules 15 to 18.
pub fn multiply(
    alloc: Global,
    product: &Product,
    from: &str,
    to: &str,
    units: i128,
    places: u32,
) -> Result<Product, ChangeError>
    ensures ok { IfOk result (λ changed. changed ≡ multiplied from.now to.now units places product.now) }
    ensures keeps { IfOk result (λ _. (part : ℕ) → MultiplyAsks from.now to.now units places product.now part) }
    ensures refused { (broken : breaks.ChangeBreak) → result ≡ Err (ChangeError.Change broken)
        → IsFirstBroken (MultiplyAsks from.now to.now units places product.now) broken.part }
{
    let Some(finer) = finer(product, places) else {
        return Err(ChangeError::Change(ChangeBreak { part: 1 }));
    };
    let factors = Factors {
        from: from.as_bytes(),
        to: to.as_bytes(),
        factor: units,
        others: i128::from(finer.power),
    };
    let Some(changed) = with_finer_basis(alloc, product, finer, places, 0, &factors)? else {
        return Err(ChangeError::Change(ChangeBreak { part: 2 }));
    };
    if has_transition(product, factors.from, factors.to) {
        Ok(changed)
    } else {
        Err(ChangeError::Change(ChangeBreak { part: 3 }))
    }
}
