//! Two degrees of one run. Each function says laws and returns at once.

ghost use Rattle.limit_laws.specs.CellTails.{LaterDegreesAddLittle, SecondLaterDegreesAddLittle};
ghost use Rattle.limit_laws.specs.Modulus.{PlanReservesConverge, PatternReservesConverge};
ghost use Rattle.limit_laws.specs.Modulus.{AllProbabilitiesConverge, AllSecondMomentsConverge};
ghost use Rattle.limit_laws.specs.YearOfModuli.{ReserveModuli, SecondMomentModuli, ProbabilityModuli};

/// From degree 8 on the higher degrees of a tame system add at most (1/8) / 8^n to a cell's Taylor value, and so they
/// do in the second half of a tame pair.
pub fn later_degrees_add_little()
    ensures single { LaterDegreesAddLittle }
    ensures second { SecondLaterDegreesAddLittle }
{}

/// The reserves of two degrees from 8 on differ by at most G W / 2^13, divided by 8^n, in minor units; W is the radius
/// of the date. So they differ by at most G 2^32 / 8^n.
pub fn reserves_converge()
    ensures payments { PlanReservesConverge }
    ensures pattern { PatternReservesConverge }
{}

/// The probabilities of two degrees from 8 on differ, all states together, by at most the forward radius over 2^13,
/// divided by 8^n. So each differs by at most 2^32 / 8^n.
pub fn probabilities_converge()
    ensures { AllProbabilitiesConverge }
{}

/// The second moments of two degrees from 8 on differ by at most 4^g Ws / 2^13, divided by 8^n, in squared minor units;
/// Ws is the second radius of the date. So they differ by at most 4^g 2^32 / 8^n.
pub fn second_moments_converge()
    ensures { AllSecondMomentsConverge }
{}

/// The moduli of an annuity at issue and a month before its term, as counted by hand.
pub fn moduli_of_a_year()
    ensures reserves { ReserveModuli }
    ensures second { SecondMomentModuli }
    ensures probabilities { ProbabilityModuli }
{}
