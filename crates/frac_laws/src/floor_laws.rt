//! The floor and the ceiling of a quotient of whole numbers, below zero too. Each function says one law and
//! computes nothing.

ghost use Rattle.frac_laws.specs.FloorLaws.{FloorIsAtMost, FloorPlusOneIsAbove, FloorIsGreatest};
ghost use Rattle.frac_laws.specs.FloorLaws.{CeilingIsAtLeast, CeilingMinusOneIsBelow, CeilingIsLeast};

/// `floor(n/d) <= n/d`.
#[tactic(auto, using(crate::proofs::Floors::floor_le))]
pub fn floor_is_at_most()
    ensures { FloorIsAtMost }
{}

/// `n/d < floor(n/d) + 1`.
#[tactic(auto, using(crate::proofs::Floors::lt_next))]
pub fn floor_plus_one_is_above()
    ensures { FloorPlusOneIsAbove }
{}

/// A whole number at or below `n/d` is at or below the floor.
#[tactic(auto, using(crate::proofs::Floors::floor_greatest))]
pub fn floor_is_greatest()
    ensures { FloorIsGreatest }
{}

/// `n/d <= ceiling(n/d)`.
#[tactic(auto, using(crate::proofs::Floors::le_ceiling))]
pub fn ceiling_is_at_least()
    ensures { CeilingIsAtLeast }
{}

/// `ceiling(n/d) - 1 < n/d`.
#[tactic(auto, using(crate::proofs::Floors::previous_lt))]
pub fn ceiling_minus_one_is_below()
    ensures { CeilingMinusOneIsBelow }
{}

/// A whole number at or above `n/d` is at or above the ceiling.
#[tactic(auto, using(crate::proofs::Floors::ceiling_least))]
pub fn ceiling_is_least()
    ensures { CeilingIsLeast }
{}
