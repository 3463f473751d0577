//! The theory of a rounded Taylor step: how far its sum is from the exact Taylor value.
#![tactic(auto)]

mod radius_laws;
mod sample_checks;
mod stored_laws;

pub use radius_laws::{pair_steps_stay_within_their_radius, steps_stay_within_their_radius};
pub use sample_checks::{sample_step_may_stop_early, sample_step_meets_the_premises};
pub use stored_laws::{
    stored_pair_steps_stay_within_their_radius, stored_steps_stay_within_their_radius,
};
