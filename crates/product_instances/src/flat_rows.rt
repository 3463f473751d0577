//! Values and rows of states that are never left, as counted by hand. Each function says what they are and returns at
//! once.

ghost use Rattle.product_instances.specs.FlatRows.{ValueOfTheStart, PremiumHolds, HigherPremiumDoesNotHold};
ghost use Rattle.product_instances.specs.FlatRows.{NoPremiumHolds, CertainRowsHold};

/// A value is that of the start state, with its lump at issue.
pub fn value_is_of_the_start()
    ensures { ValueOfTheStart }
{}

/// A row of a premium is in millionths, says no more than B / P, and says nothing where the pattern is worth 0.
pub fn premium_rows_hold_or_not()
    ensures holds { PremiumHolds }
    ensures higher { HigherPremiumDoesNotHold }
    ensures never { NoPremiumHolds }
{}

/// Rows of a certain lump: second moments are in squared minor units, first moments in millionths.
pub fn certain_rows_hold()
    ensures { CertainRowsHold }
{}
