//! The growth of an error over a cell. Each function says one law and returns at once.

ghost use Rattle.cell_laws.specs.GrowthLaws.{CellsGrow, CellsGrowLittle};
ghost use Rattle.cell_laws.specs.GrowthLaws.{SecondHalvesRespond, PairsGrow};

/// A homogeneous Taylor value of a tame system is at most `1 + kappa` times its start, for every degree,
/// where the powers from the degree on have a term of their own.
pub fn cells_grow()
    ensures { CellsGrow }
{}

/// Whatever kappa, the homogeneous coefficients of a tame system add up to at most 129/127 of its start.
pub fn cells_grow_little()
    ensures { CellsGrowLittle }
{}

/// The second half of a tame pair takes at most `c` times a start of the first half.
pub fn second_halves_respond()
    ensures { SecondHalvesRespond }
{}

/// The second half of a tame pair grows by its own growth and by what it takes from the first half.
pub fn pairs_grow()
    ensures { PairsGrow }
{}
