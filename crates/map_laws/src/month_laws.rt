//! The map of a month, made of a constant cell's and applied. Each function says laws and returns at once.

ghost use Rattle.map_laws.specs.Applied.{MiddlesAreNear, MonthMapsStayWithinTheirRadius};
ghost use Rattle.map_laws.specs.MonthOfCells.{ConstantCellsHaveSmallNumbers, ConstantCellsAreNarrow, ConstantCellsGrow};
ghost use Rattle.map_laws.specs.MonthOfCells.{MonthsStayWithinTheirRadius};

/// The middle of a row's interval is near the exact value of each map that the intervals hold.
pub fn middles_are_near()
    ensures { MiddlesAreNear }
{}

/// A stored system whose exact one is constant in x has what the laws on maps ask for.
pub fn constant_cells_make_months()
    ensures numbers { ConstantCellsHaveSmallNumbers }
    ensures narrow { ConstantCellsAreNarrow }
    ensures growth { ConstantCellsGrow }
{}

/// A month map is as 32 steps in the ledger, for every start near the vector: of any map of 32 cells, and of one made
/// of
/// a constant cell, whose value is the 32-fold Taylor value.
pub fn months_stay_within_their_radius()
    ensures maps { MonthMapsStayWithinTheirRadius }
    ensures cells { MonthsStayWithinTheirRadius }
{}
