//! The law of the month grid. The function says laws and returns at once.

ghost use Rattle.month_grid.specs.MonthGridLaws.{MonthGridIsNear, MonthGridIsWithinAUnit, MonthGridMeetsAtTheTerm};

/// Of both plans of every admissible product, the reserves by whole months are near those by 32 cells a month: in each
/// degree of at least 4096 they differ by less than a unit of 2^-64 at the plan's scale, at the term by nothing.
pub fn month_grid_is_near()
    ensures radius { MonthGridIsNear }
    ensures unit { MonthGridIsWithinAUnit }
    ensures term { MonthGridMeetsAtTheTerm }
{}
