//! The cells of an admissible product. The function says laws and returns at once.

ghost use Rattle.product_laws.specs.TameCells.{ThieleCellsAreTame, PowersAreSmall, KolmogorovCellsAreTame};
ghost use Rattle.product_laws.specs.TameCells.{NorbergPairsAreTame};

/// With values divided by the plan's scale, each cell is tame with the growth of its month: Thiele's system of both
/// plans in the norm Sup, with the norm of each of its matrices, Kolmogorov's in the norm Sum, and Norberg's pair of
/// the payment plan with its coupling.
pub fn product_cells_are_tame()
    ensures thiele { ThieleCellsAreTame }
    ensures powers { PowersAreSmall }
    ensures kolmogorov { KolmogorovCellsAreTame }
    ensures norberg { NorbergPairsAreTame }
{}
