//! Products of one state without interest, in every degree from 1 on. Each function says laws and returns at
//! once.

ghost use Rattle.model_laws.specs.FlatLaws.{FlatMonthsAddUp, FlatReserves, FlatValueHolds};
ghost use Rattle.model_laws.specs.FlatLaws.{HigherValueDoesNotHold, LumpAtTheTerm, LumpAtIssue};
ghost use Rattle.model_laws.specs.MomentLaws.{LumpHasNoVariance};

/// A month back adds the lump of its end and a twelfth of the yearly amount.
pub fn flat_months_add_up()
    ensures { FlatMonthsAddUp }
{}

/// The reserves of a constant payment, a row that says its value and one that misses it, and lumps at
/// the term and at issue with their second moment.
pub fn flat_products_are_exact()
    ensures reserves { FlatReserves }
    ensures holds { FlatValueHolds }
    ensures does_not_hold { HigherValueDoesNotHold }
    ensures lump_at_the_term { LumpAtTheTerm }
    ensures lump_at_issue { LumpAtIssue }
    ensures second_moment { LumpHasNoVariance }
{}
