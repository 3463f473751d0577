//! The defects of a cell of two states by degree 2, beside exact fractions that were computed outside. Each function
//! says what they are and returns at once.

ghost use Rattle.limit_laws.specs.SmallCell.{ReservesOfSmallCell, SecondMomentsOfSmallCell, ProbabilitiesOfSmallCell};
ghost use Rattle.limit_laws.specs.SmallCell.{ReserveDefects, SecondMomentDefects, ProbabilityDefects};

/// The polynomials of the three runs over the cell.
pub fn small_cell_has_runs()
    ensures reserves { ReservesOfSmallCell }
    ensures second { SecondMomentsOfSmallCell }
    ensures probabilities { ProbabilitiesOfSmallCell }
{}

/// What they leave of the three equations: nothing below x^2, and from there on what products and payments have.
pub fn small_cell_has_defects()
    ensures reserves { ReserveDefects }
    ensures second { SecondMomentDefects }
    ensures probabilities { ProbabilityDefects }
{}
