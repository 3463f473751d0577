//! Every admissible product: how small the curves, payments and sums of its cells are, power by power.
#![tactic(auto)]

mod small_cells;

pub use small_cells::{cells_have_small_curves, cells_have_small_payments};
