//! The month grid: reserves by whole months as cells, against those by 32 cells a month.
#![tactic(auto)]

mod cell_parts;
mod month_grid_laws;

pub use cell_parts::{cells_have_polynomials, months_have_parts};
pub use month_grid_laws::month_grid_is_near;
