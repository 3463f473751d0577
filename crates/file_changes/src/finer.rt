//! Finer denominators.

ghost use Rattle.std.specs.Prelude.{◌≡◌, ◌<◌, ◌≤◌, ◌^◌, IfSome, IfNone};
ghost use Rattle.named_numbers.specs.Numbers.{most_denominator};
ghost use Rattle.file_changes.specs.BasisChanges as basis;

use named_numbers::{MOST_DENOMINATOR, named_numbers_agree};
use product_model::Product;

/// A denominator that has been taken times a power of ten, and that power.
#[derive(Clone, Copy)]
pub(crate) struct Denominator {
    pub den: u64,
    pub power: u64,
}

/// The denominator of a product, times a power of ten; none where it is above 10^12.
pub(crate) fn finer(product: &Product, places: u32) -> Option<Denominator>
    ensures den { IfSome result (λ found. found.den ≡ basis.finer places product.now) }
    ensures power { IfSome result (λ found. found.power ≡ 10 ^ places) }
    ensures small { IfSome result (λ found. found.den ≤ most_denominator) }
    ensures too_large { IfNone result (most_denominator < basis.finer places product.now) }
{
    named_numbers_agree();
    let den = product.den() as u64;
    let power = 10_u64.checked_pow(places)?;
    let den = den.checked_mul(power)?;
    if den <= MOST_DENOMINATOR as u64 {
        Some(Denominator { den, power })
    } else {
        None
    }
}
