//! Every admissible product: its cells are tame, and their numbers can be stored.
#![tactic(auto)]

mod fitting_numbers;
mod sparse_cells;
mod tame_cells;

pub use fitting_numbers::numbers_fit;
pub use sparse_cells::cells_are_sparse;
pub use tame_cells::product_cells_are_tame;
