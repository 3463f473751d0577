//! The system of a constant month. The function says laws and returns at once.

ghost use Rattle.constant_months.specs.MonthSystems.{CellsAreAlike, StretchesKeepTheirSystem};
ghost use Rattle.constant_months.specs.MonthSystems.{MonthSystemsAreConstant, ConstantMonthsAreConstantCells};

/// Where nothing varies over a month, all its cells have one equation, constant in x; a month that goes on with a
/// stretch has that of the month before; and what is stored of it has what the map of a month asks for, with the growth
/// of the month.
pub fn constant_months_are_one_system()
    ensures cells { CellsAreAlike }
    ensures stretches { StretchesKeepTheirSystem }
    ensures constant { MonthSystemsAreConstant }
    ensures stored { ConstantMonthsAreConstantCells }
{}
