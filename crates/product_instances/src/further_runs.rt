//! The three runs of one product on two cells a month, by degree 2, beside exact fractions that were computed outside.
//! Each function says what they are and returns at once.

ghost use Rattle.product_instances.specs.Further.{FurtherReservesAt2, FurtherReservesAt1, FurtherReservesAt0};
ghost use Rattle.product_instances.specs.Further.{FurtherMomentsAt2, FurtherMomentsAt1};
ghost use Rattle.product_instances.specs.Further.{FurtherProbabilitiesAt1, FurtherProbabilitiesAt2};

/// The reserves at three dates: lumps of a date come before the month that ends there, the last cell of a month comes
/// first, each month has its own curves and each transition its own sum.
pub fn further_reserves()
    ensures at_2 { FurtherReservesAt2 }
    ensures at_1 { FurtherReservesAt1 }
    ensures at_0 { FurtherReservesAt0 }
{}

/// The second moments at two dates: twice the lump times the reserve, and the coupling by the reserve before the cell.
pub fn further_moments()
    ensures at_2 { FurtherMomentsAt2 }
    ensures at_1 { FurtherMomentsAt1 }
{}

/// The probabilities at two dates, from the start state on.
pub fn further_probabilities()
    ensures at_1 { FurtherProbabilitiesAt1 }
    ensures at_2 { FurtherProbabilitiesAt2 }
{}
