//! The theory of one cell: its Taylor coefficients, their decay, and the growth of an error over it.
#![tactic(auto)]

mod decay_laws;
mod error_laws;
mod growth_laws;
mod recurrence_laws;
mod sample_checks;
mod scalar_laws;
mod solution_laws;

pub use decay_laws::{coefficients_decay, pair_coefficients_decay, tails_are_below_a_unit};
pub use error_laws::{errors_grow, later_degrees_are_close};
pub use growth_laws::{cells_grow, cells_grow_little, pairs_grow, second_halves_respond};
pub use recurrence_laws::{
    coefficients_recur, norms_are_driven, runs_superpose, taylor_value_sums,
    taylor_values_keep_dimension, taylor_values_stay_within,
};
pub use sample_checks::{sample_growths_are_least, sample_values_are_exact, samples_are_tame};
pub use scalar_laws::{
    convolutions_stay_within, driven_sequences_decay, driven_totals, second_order_parts_are_small,
    weighted_right_sides_are_small,
};
pub use solution_laws::{defects_respond, solutions_are_driven, tame_right_sides_are_small};
