//! The run of a constant month. The function says laws and returns at once.

ghost use Rattle.constant_months.specs.MonthTurns.{MonthsAreTurns, LedgersLeaveSpare};

/// A constant month backward is 32 Taylor values of one system, each of the one before, and the ledger of radii counts
/// a unit a cell more for it than for the month's map.
pub fn months_are_turns()
    ensures turns { MonthsAreTurns }
    ensures spare { LedgersLeaveSpare }
{}
