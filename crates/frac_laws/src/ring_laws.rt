//! Fractions are a commutative ring. Each function says one law and computes nothing.

ghost use Rattle.frac_laws.specs.RingLaws.{SumsCommute, SumsAssociate, ZeroAddsNothing};
ghost use Rattle.frac_laws.specs.RingLaws.{OppositesCancel, ProductsCommute, ProductsAssociate};
ghost use Rattle.frac_laws.specs.RingLaws.{OneTimesIsSame, ProductsDistribute, DifferenceIsSum};
ghost use Rattle.frac_laws.specs.RingLaws.{DivisionUndoesProduct};

/// `x + y = y + x`.
#[tactic(auto, using(crate::proofs::FractionRing::add_comm))]
pub fn sums_commute()
    ensures { SumsCommute }
{}

/// `(x + y) + z = x + (y + z)`.
#[tactic(auto, using(crate::proofs::FractionRing::add_assoc))]
pub fn sums_associate()
    ensures { SumsAssociate }
{}

/// `x + 0 = x`.
#[tactic(auto, using(crate::proofs::FractionRing::add_zero))]
pub fn zero_adds_nothing()
    ensures { ZeroAddsNothing }
{}

/// `x + (-x) = 0`.
#[tactic(auto, using(crate::proofs::FractionRing::add_opposite))]
pub fn opposites_cancel()
    ensures { OppositesCancel }
{}

/// `x y = y x`.
#[tactic(auto, using(crate::proofs::FractionRing::mul_comm))]
pub fn products_commute()
    ensures { ProductsCommute }
{}

/// `(x y) z = x (y z)`.
#[tactic(auto, using(crate::proofs::FractionRing::mul_assoc))]
pub fn products_associate()
    ensures { ProductsAssociate }
{}

/// `x * 1 = x`.
#[tactic(auto, using(crate::proofs::FractionRing::mul_one))]
pub fn one_times_is_same()
    ensures { OneTimesIsSame }
{}

/// `x (y + z) = x y + x z`.
#[tactic(auto, using(crate::proofs::FractionRing::mul_add))]
pub fn products_distribute()
    ensures { ProductsDistribute }
{}

/// `x - y = x + (-y)`.
#[tactic(auto, using(crate::proofs::RingFacts::difference))]
pub fn difference_is_sum()
    ensures { DifferenceIsSum }
{}

/// `d (x / d) = x`.
#[tactic(auto, using(crate::proofs::Division::times_divided))]
pub fn division_undoes_product()
    ensures { DivisionUndoesProduct }
{}
