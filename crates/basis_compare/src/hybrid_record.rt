//! The hybrid of two bases.

ghost use Rattle.std.specs.Prelude.{◌≡◌, IfOk, Some, None};
ghost use Rattle.basis_compare.specs.Bases.{hybrid_of, first_difference, BreaksAtMostTheLastRule};
ghost use Rattle.basis_compare.specs.declared.differing.CompareBreak as differing;

use crate::copies::product_with_interest;
use crate::differing::{CompareBreak, first_difference};
use product_model::Product;
use rate_bounds::Admitted;
use std::alloc::{AllocError, Global};
use thiserror::Error;

/// Why two bases have no hybrid.
#[derive(Clone, Copy, Debug, PartialEq, Eq, Error)]
pub enum CompareError {
    /// The first part that is broken.
    #[error("part {part} is broken: {a} and {b}", part = .0.part, a = .0.a, b = .0.b)]
    Compare(CompareBreak),
    #[error("out of memory")]
    Memory,
}

impl From<AllocError> for CompareError {
    ghost use Rattle.basis_compare.specs.declared.hybrid_record.CompareError.TheVariants.{Memory};

    ghost from_gives = { λ _ e. e ≡ Memory };

    fn from(_: AllocError) -> Self {
        CompareError::Memory
    }
}

/// The hybrid: basis A with the interest of basis B. It refuses bases of which a part differs, by the first such part.
/// It obeys rules 15 to 17, since
/// A and B do, and may break rule 18.
pub fn hybrid(alloc: Global, a: &Admitted, b: &Admitted) -> Result<Product, CompareError>
    ensures ok { IfOk result (λ h. h ≡ hybrid_of a.now b.now) }
    ensures comparable { IfOk result (λ _. first_difference a.now b.now ≡ None) }
    ensures rules { IfOk result BreaksAtMostTheLastRule }
    ensures compare { (broken : differing.CompareBreak) → result ≡ Err (CompareError.Compare broken)
        → first_difference a.now b.now ≡ Some broken }
{
    let (old, new) = (a.product(), b.product());
    match first_difference(old, new) {
        Some(broken) => Err(CompareError::Compare(broken)),
        None => Ok(product_with_interest(alloc, old, new.interest())?),
    }
}
