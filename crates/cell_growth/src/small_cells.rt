//! Growth of moments over a cell. The function says laws and returns at once.

ghost use Rattle.cell_growth.specs.SmallCellGrowth.{SmallCellsGrow, SmallPairsGrow};

/// A cell within the bounds of its month enlarges first moments by the month's growth and by what is paid, and second
/// moments by the growth and by what they receive.
pub fn small_cells_grow()
    ensures first { SmallCellsGrow }
    ensures second { SmallPairsGrow }
{}
