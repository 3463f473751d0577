//! How far two Taylor values are apart. Each function says laws and returns at once.

ghost use Rattle.cell_laws.specs.ErrorLaws.{ErrorsGrow, ErrorsGrowByKappa, SecondErrorsGrow};
ghost use Rattle.cell_laws.specs.ErrorLaws.{LaterDegreesAreClose, StoredLaterDegreesAreClose};
ghost use Rattle.cell_laws.specs.ErrorLaws.{SecondLaterDegreesAreClose, StoredSecondLaterDegreesAreClose};

/// Two Taylor values of one degree are at most `1 + kappa` times as far apart as their starts.
pub fn errors_grow()
    ensures any_degree { ErrorsGrow }
    ensures above_all_powers { ErrorsGrowByKappa }
    ensures second { SecondErrorsGrow }
{}

/// A Taylor value of a degree above 24 is within a unit of 2^-64 of that of degree 24.
pub fn later_degrees_are_close()
    ensures start { LaterDegreesAreClose }
    ensures stored_start { StoredLaterDegreesAreClose }
    ensures second { SecondLaterDegreesAreClose }
    ensures stored_second { StoredSecondLaterDegreesAreClose }
{}
