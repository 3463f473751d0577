//! Cells with small curves and payments. The function says laws and returns at once.

ghost use Rattle.cell_bounds.specs.SmallCellLaws.{SmallThieleCellsAreTame, SmallKolmogorovCellsAreTame};
ghost use Rattle.cell_bounds.specs.SmallCellLaws.{SmallNorbergPairsAreTame};

/// A cell within the bounds of its month is tame with the month's growth: Thiele's system with values divided by a
/// scale that covers a sixth of what a state pays a year, Kolmogorov's system, and Norberg's pair.
pub fn small_cells_are_tame()
    ensures thiele { SmallThieleCellsAreTame }
    ensures kolmogorov { SmallKolmogorovCellsAreTame }
    ensures norberg { SmallNorbergPairsAreTame }
{}
