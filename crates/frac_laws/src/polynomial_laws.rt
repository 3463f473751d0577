//! Polynomials as lists of coefficients. Each function says one law and computes nothing.

ghost use Rattle.frac_laws.specs.PolynomialLaws.{SumsTakeValues, MultiplesTakeValues, ShiftsTakeValues};
ghost use Rattle.frac_laws.specs.PolynomialLaws.{StretchesTakeValues, ReflectionsTakeValues, ShiftsAdd};
ghost use Rattle.frac_laws.specs.PolynomialLaws.{StretchesMultiply, ShiftsPassStretches};
ghost use Rattle.frac_laws.specs.PolynomialLaws.{ShiftsPassMultiples, StretchesPassMultiples};
ghost use Rattle.frac_laws.specs.PolynomialLaws.{ShiftsKeepLength, StretchesKeepLength};
ghost use Rattle.frac_laws.specs.PolynomialLaws.{DenominatorIsFactor};

/// The values of sums, multiples, shifts, stretches and reflections.
pub fn polynomials_take_values()
    ensures sums { SumsTakeValues }
    ensures multiples { MultiplesTakeValues }
    ensures shifts { ShiftsTakeValues }
    ensures stretches { StretchesTakeValues }
    ensures reflections { ReflectionsTakeValues }
{}

/// How shifts and stretches follow on one another, coefficient by coefficient.
pub fn shifts_and_stretches_compose()
    ensures shifts { ShiftsAdd }
    ensures stretches { StretchesMultiply }
    ensures passing { ShiftsPassStretches }
{}

/// Shifts and stretches of multiples are multiples.
pub fn multiples_stay_multiples()
    ensures shifts { ShiftsPassMultiples }
    ensures stretches { StretchesPassMultiples }
{}

/// Shifts and stretches keep the number of coefficients.
pub fn polynomials_keep_length()
    ensures shifts { ShiftsKeepLength }
    ensures stretches { StretchesKeepLength }
{}

/// Whole numbers over d are 1/d times the whole numbers.
#[tactic(auto, using(crate::proofs::PolynomialFacts::denominator))]
pub fn denominator_is_factor()
    ensures { DenominatorIsFactor }
{}
