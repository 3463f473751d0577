//! The curves and payments of an admissible product's cells. Each function says laws and returns at once.

ghost use Rattle.product_cells.specs.SmallCells.{MonthsAreSmall, CellsHaveSmallCurves, CellsHaveSmallPayments};
ghost use Rattle.product_cells.specs.SmallCells.{ScalesLeaveRoom};

/// The numbers of a month are within rules 15 to 17 and counted by its growth; the coefficients and means of the
/// curves in its cells are within them, power by power.
pub fn cells_have_small_curves()
    ensures months { MonthsAreSmall }
    ensures curves { CellsHaveSmallCurves }
{}

/// The coefficients of payments are within their loads, and the loads within pay and scale.
pub fn cells_have_small_payments()
    ensures payments { CellsHaveSmallPayments }
    ensures room { ScalesLeaveRoom }
{}
