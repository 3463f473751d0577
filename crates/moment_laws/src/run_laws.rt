//! Runs cell by cell, and under a scale. Each function says laws and returns at once.

ghost use Rattle.moment_laws.specs.CellRuns.{MonthsGoByCells, TaylorValuesScale, SecondTaylorValuesScale};
ghost use Rattle.moment_laws.specs.SecondMomentLaws.{MomentsGoByCells};

/// A month backward goes cell by cell, the last one first.
pub fn months_go_by_cells()
    ensures first { MonthsGoByCells }
    ensures both { MomentsGoByCells }
{}

/// The Taylor value of a scaled system from a scaled start is the scaled Taylor value, and so for a pair.
pub fn taylor_values_scale()
    ensures single { TaylorValuesScale }
    ensures second { SecondTaylorValuesScale }
{}
