//! What a sparse stored system needs to know of a cell. The function says laws and returns at once.

ghost use Rattle.product_laws.specs.SparseCells.{CellsAreSparse, CellsHaveJobDegrees};

/// The systems of a cell have numbers on the diagonal and where the product has transitions, and nothing beyond the
/// degrees of the three jobs: 5 for probabilities, 8 for first moments and 11 for both.
pub fn cells_are_sparse()
    ensures entries { CellsAreSparse }
    ensures degrees { CellsHaveJobDegrees }
{}
