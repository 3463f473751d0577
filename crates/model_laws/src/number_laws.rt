//! What the whole numerators of a month stand for.

ghost use Rattle.model_laws.specs.NumberLaws.{CurveNumeratorsStandForBernstein};
ghost use Rattle.model_laws.specs.NumberLaws.{PaymentNumeratorsStandForBernstein};

/// The numerators over a month, by their common denominator, are the Bernstein coefficients of degree
/// five of the curve or payment over that month.
pub fn numerators_stand_for_bernstein()
    ensures curve { CurveNumeratorsStandForBernstein }
    ensures payment { PaymentNumeratorsStandForBernstein }
{}
