//! The map of one cell. Each function says laws and returns at once.

ghost use Rattle.map_laws.specs.CellMaps.{CellMapsAreNarrow};
ghost use Rattle.map_laws.specs.CellOfSystem.{ColumnsAreDifferences, TaylorValuesAreAffine, CellMapsGrow};
ghost use Rattle.map_laws.specs.CellOfSystem.{FreeNumbersStaySmall};

/// The Taylor value of a degree is an affine map of its start, whose columns are differences of Taylor values.
pub fn cell_maps_hold_taylor_values()
    ensures columns { ColumnsAreDifferences }
    ensures values { TaylorValuesAreAffine }
{}

/// The map of a tame cell enlarges no vector by more than the cell's growth, and its free numbers are small where
/// there are some at power 0 alone.
pub fn cell_maps_grow()
    ensures rows { CellMapsGrow }
    ensures free { FreeNumbersStaySmall }
{}

/// What the intervals of a cell's map need for five doublings.
pub fn cell_maps_start_narrow()
    ensures { CellMapsAreNarrow }
{}
