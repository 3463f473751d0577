//! How much a cell within the bounds of its month enlarges first and second moments.
#![tactic(auto)]

mod small_cells;

pub use small_cells::small_cells_grow;
