//! The first part of a change that is refused.

ghost use Rattle.std.specs.Prelude.{◌≡◌};

use std::alloc::AllocError;
use thiserror::Error;

/// The first part that is broken: 1, the denominator is above 10^12; 2, a coefficient of a curve has more than 64 bits
/// or breaks rule 9; 3, there is no such transition; 4, there is no premium table; 5, a lump is above 10^12, or a step
/// has a coefficient of more than 64 bits or breaks rule 11; 6, a step of a payer does not go on in whole coefficients
/// where a continuous premium ends.
#[derive(Clone, Copy, Debug, PartialEq, Eq)]
pub struct ChangeBreak {
    pub part: u8,
}

/// Why a product is not changed.
#[derive(Clone, Copy, Debug, PartialEq, Eq, Error)]
pub enum ChangeError {
    /// The first part that is broken.
    #[error("part {part} of the change is broken", part = .0.part)]
    Change(ChangeBreak),
    #[error("out of memory")]
    Memory,
}

impl From<AllocError> for ChangeError {
    ghost use Rattle.file_changes.specs.declared.breaks.ChangeError.TheVariants.{Memory};

    ghost from_gives = { λ _ e. e ≡ Memory };

    fn from(_: AllocError) -> Self {
        ChangeError::Memory
    }
}
