//! The cells of a month. Each function says one law and returns at once.

ghost use Rattle.curve_laws.specs.CellLaws.{CellsHaveSmallCoefficients, CellsKeepMeans};

/// The coefficients in a cell, power by power, from bounds on the Bernstein coefficients over the month, for any number
/// of cells in a month and both directions.
pub fn cells_have_small_coefficients()
    ensures { CellsHaveSmallCoefficients }
{}

/// The mean over a cell lies between bounds of the Bernstein coefficients over the month.
pub fn cells_keep_means()
    ensures { CellsKeepMeans }
{}
