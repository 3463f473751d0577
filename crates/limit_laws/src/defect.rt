//! How far a run is from the equations. Each function says laws and returns at once.

ghost use Rattle.limit_laws.specs.WrittenEquations.{PolynomialsAreFunctions, SumsOfPolynomialsAreFunctions};
ghost use Rattle.limit_laws.specs.Defect.{PlanDefectsAreSmall, PatternDefectsAreSmall, NorbergDefectsAreSmall};
ghost use Rattle.limit_laws.specs.Defect.{KolmogorovDefectsAreSmall};
ghost use Rattle.limit_laws.specs.Defect.{DefectValuesAreSmall, FirstPolynomialsFollow, SecondPolynomialsFollow};
ghost use Rattle.limit_laws.specs.Defect.{ProbabilityPolynomialsFollow};

/// Sums, differences, products and multiples of polynomials are those of functions; the derivative is that of powers.
pub fn polynomials_are_functions()
    ensures two { PolynomialsAreFunctions }
    ensures sums { SumsOfPolynomialsAreFunctions }
{}

/// In each cell, and in each degree n from 8 on, the polynomials of the run solve Thiele's, Norberg's and Kolmogorov's
/// equations but for a defect: it has no power below x^n, and its coefficients add up to at most 8^-n in the norm. So
/// at each x of the cell the equation of a state fails by at most 8^-n. First moments and payments are divided by G,
/// second moments by G^2.
pub fn defects_are_small()
    ensures payments { PlanDefectsAreSmall }
    ensures pattern { PatternDefectsAreSmall }
    ensures norberg { NorbergDefectsAreSmall }
    ensures kolmogorov { KolmogorovDefectsAreSmall }
    ensures values { DefectValuesAreSmall }
{}

/// These polynomials are the run: at 0 they have its values before the cell, and at 1 those after it.
pub fn polynomials_follow_runs()
    ensures first { FirstPolynomialsFollow }
    ensures second { SecondPolynomialsFollow }
    ensures probabilities { ProbabilityPolynomialsFollow }
{}
