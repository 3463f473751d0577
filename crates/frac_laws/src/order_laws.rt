//! The order of fractions. Each function says one law and computes nothing.

ghost use Rattle.frac_laws.specs.OrderLaws.{OrderIsReflexive, OrderIsTransitive};
ghost use Rattle.frac_laws.specs.OrderLaws.{OrderIsAntisymmetric, OrderIsTotal, BelowIsNotAtLeast};
ghost use Rattle.frac_laws.specs.OrderLaws.{SumsKeepOrder, SumsKeepStrictOrder, ProductsKeepOrder};
ghost use Rattle.frac_laws.specs.OrderLaws.{ProductsKeepStrictOrder, PositiveFactorsCancel};
ghost use Rattle.frac_laws.specs.OrderLaws.{GreaterIsLeastUpperBound, LesserIsGreatestLowerBound};

/// `x <= x`.
#[tactic(auto, using(crate::proofs::Order::le_refl))]
pub fn order_is_reflexive()
    ensures { OrderIsReflexive }
{}

/// `x <= y and y <= z give x <= z`.
#[tactic(auto, using(crate::proofs::OrderFacts::transitive))]
pub fn order_is_transitive()
    ensures { OrderIsTransitive }
{}

/// `x <= y and y <= x give x = y`.
#[tactic(auto, using(crate::proofs::OrderFacts::antisymmetric))]
pub fn order_is_antisymmetric()
    ensures { OrderIsAntisymmetric }
{}

/// `x <= y or y <= x`.
#[tactic(auto, using(crate::proofs::Order::le_total))]
pub fn order_is_total()
    ensures { OrderIsTotal }
{}

/// `x < y exactly where y <= x does not hold`.
#[tactic(auto, using(crate::proofs::OrderFacts::below))]
pub fn below_is_not_at_least()
    ensures { BelowIsNotAtLeast }
{}

/// `x <= y and z <= w give x + z <= y + w`.
#[tactic(auto, using(crate::proofs::OrderFacts::sums))]
pub fn sums_keep_order()
    ensures { SumsKeepOrder }
{}

/// `x < y and z <= w give x + z < y + w`.
#[tactic(auto, using(crate::proofs::OrderFacts::strict_sums))]
pub fn sums_keep_strict_order()
    ensures { SumsKeepStrictOrder }
{}

/// `0 <= c and x <= y give c x <= c y`.
#[tactic(auto, using(crate::proofs::OrderFacts::products))]
pub fn products_keep_order()
    ensures { ProductsKeepOrder }
{}

/// `0 < c and x < y give c x < c y`.
#[tactic(auto, using(crate::proofs::OrderFacts::strict_products))]
pub fn products_keep_strict_order()
    ensures { ProductsKeepStrictOrder }
{}

/// `0 < c and c x <= c y give x <= y`.
#[tactic(auto, using(crate::proofs::OrderFacts::cancel))]
pub fn positive_factors_cancel()
    ensures { PositiveFactorsCancel }
{}

/// The greater of x and y is at most r exactly where both are.
#[tactic(auto, using(crate::proofs::OrderFacts::upper))]
pub fn greater_is_least_upper_bound()
    ensures { GreaterIsLeastUpperBound }
{}

/// The lesser of x and y is at least r exactly where both are.
#[tactic(auto, using(crate::proofs::OrderFacts::lower))]
pub fn lesser_is_greatest_lower_bound()
    ensures { LesserIsGreatestLowerBound }
{}
