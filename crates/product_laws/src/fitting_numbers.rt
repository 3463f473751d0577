//! Numbers that can be stored. The function says laws and returns at once.

ghost use Rattle.product_laws.specs.FittingNumbers.{NumbersFit};

/// Each free number and each number of the coupling of the scaled systems is at most 1/32 in size; those of the
/// matrices are at most 1/64, since their norms add up to no more.
pub fn numbers_fit()
    ensures { NumbersFit }
{}
