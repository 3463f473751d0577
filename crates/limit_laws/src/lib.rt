//! What the degree of a run changes, and how far a run is from the differential equations.
#![tactic(auto)]

mod defect;
mod modulus;
mod small_cell;

pub use defect::{defects_are_small, polynomials_are_functions, polynomials_follow_runs};
pub use modulus::{
    later_degrees_add_little, moduli_of_a_year, probabilities_converge, reserves_converge,
    second_moments_converge,
};
pub use small_cell::{small_cell_has_defects, small_cell_has_runs};
