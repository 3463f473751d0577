//! Small runs, beside numbers that were computed by hand or by another program's exact fractions. Each
//! function says what they are and returns at once.

ghost use Rattle.model_laws.specs.RunInstances.{IntensityInCells, ReserveOfLastCell};
ghost use Rattle.model_laws.specs.RunInstances.{MomentOfLastCell, ReserveByWholeMonth, OccupancyOfFirstCell};
ghost use Rattle.model_laws.specs.RunInstances.{PatternPaysAtDates, PatternPaysRate};
ghost use Rattle.model_laws.specs.RunInstances.{EndRowsHold, LowerOccupancyDoesNotHold};

/// One cell backward, a whole month as one cell, and one cell forward of two states, with an intensity and
/// payments that vary.
pub fn cell_runs()
    ensures intensity { IntensityInCells }
    ensures reserve { ReserveOfLastCell }
    ensures second_moment { MomentOfLastCell }
    ensures whole_month { ReserveByWholeMonth }
    ensures occupancy { OccupancyOfFirstCell }
{}

/// Premium patterns at dates and as a rate: below `until`, and not at it.
pub fn patterns_pay()
    ensures at_dates { PatternPaysAtDates }
    ensures as_a_rate { PatternPaysRate }
{}

/// A row may hold, and a row may not.
pub fn rows_hold_or_not()
    ensures hold { EndRowsHold }
    ensures do_not_hold { LowerOccupancyDoesNotHold }
{}
