//! Laws from the Bernstein coefficients of a polynomial to its coefficients and its mean over a part of [0, 1].
#![tactic(auto)]

mod month_cells;
mod part_laws;

pub use month_cells::{cells_have_small_coefficients, cells_keep_means};
pub use part_laws::{parts_have_small_coefficients, parts_keep_means};
