//! The theory of month maps: affine maps with an interval for each number, doubled five times and applied.
#![tactic(auto)]

mod cell_laws_of_maps;
mod doubling_laws;
mod month_laws;

pub use cell_laws_of_maps::{cell_maps_grow, cell_maps_hold_taylor_values, cell_maps_start_narrow};
pub use doubling_laws::{doublings_are_repetitions, doublings_enclose, doublings_stay_narrow};
pub use month_laws::{
    constant_cells_make_months, middles_are_near, months_stay_within_their_radius,
};
