//! Cells whose curves and payments are small: the norms of their systems, power by power.
#![tactic(auto)]

mod small_cells;

pub use small_cells::small_cells_are_tame;
