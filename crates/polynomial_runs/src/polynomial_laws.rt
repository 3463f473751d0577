//! Polynomials and runs. Each function says laws and returns at once.

ghost use Rattle.polynomial_runs.specs.FarDecay.{FarCoefficientsDecay, RunsMissLittle};
ghost use Rattle.polynomial_runs.specs.MonthPolynomials.{MonthsAreValues, PolynomialsFollowMonths};
ghost use Rattle.polynomial_runs.specs.PolynomialSystems.{PolynomialsFollowCells};

/// The coefficients of a system with small later powers decay far, and a Taylor polynomial of a high degree misses
/// little of the equations 32 cells on.
pub fn runs_miss_little()
    ensures decay { FarCoefficientsDecay }
    ensures missed { RunsMissLittle }
{}

/// A polynomial follows the run of each cell that starts from its value as far as it misses the equations, and over the
/// 32 cells of a month the ledger carries the distance.
pub fn polynomials_follow_runs()
    ensures cell { PolynomialsFollowCells }
    ensures month { PolynomialsFollowMonths }
{}

/// A whole month as one cell takes the value of the Taylor polynomial at its end.
pub fn months_are_values()
    ensures { MonthsAreValues }
{}
