//! The laws of driven sequences. Each function says one law and returns at once.

ghost use Rattle.cell_laws.specs.ScalarLaws.{ConvolutionsStayWithin, WeightedRightSidesAreSmall};
ghost use Rattle.cell_laws.specs.ScalarLaws.{DrivenSequencesDecay, DrivenTotals};
ghost use Rattle.cell_laws.specs.ScalarLaws.{DrivenTotalsAt64, DrivenTotalsAt32, SecondOrderPartsAreSmall};

/// The total of a convolution is within the product of the totals.
pub fn convolutions_stay_within()
    ensures { ConvolutionsStayWithin }
{}

/// The right side of a recurrence, weighted by `w^k`.
pub fn weighted_right_sides_are_small()
    ensures { WeightedRightSidesAreSmall }
{}

/// A driven sequence decays.
pub fn driven_sequences_decay()
    ensures { DrivenSequencesDecay }
{}

/// The total of a driven sequence.
pub fn driven_totals()
    ensures total { DrivenTotals }
    ensures at_64 { DrivenTotalsAt64 }
    ensures at_32 { DrivenTotalsAt32 }
{}

/// The part of a driven sequence in which two factors or more act.
pub fn second_order_parts_are_small()
    ensures { SecondOrderPartsAreSmall }
{}
