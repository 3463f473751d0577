//! The cells of a month as parts of it. Each function says laws and returns at once.

ghost use Rattle.month_grid.specs.CellPolynomials.{CellsHavePolynomials, CellsOfMonthsMove, LongerCellsAreMagnified};
ghost use Rattle.month_grid.specs.CellPolynomials.{MonthsAreLonger, MovedCellsHavePolynomials};

/// Thiele's system of a cell has the polynomials of its curves and payments, that of a moved cell the moved ones, and
/// that of a longer cell magnified ones.
pub fn cells_have_polynomials()
    ensures cell { CellsHavePolynomials }
    ensures moved { MovedCellsHavePolynomials }
    ensures longer { LongerCellsAreMagnified }
{}

/// Each cell of a month is its last cell, moved, and the month is its last cell, made 32 times as long.
pub fn months_have_parts()
    ensures cells { CellsOfMonthsMove }
    ensures months { MonthsAreLonger }
{}
