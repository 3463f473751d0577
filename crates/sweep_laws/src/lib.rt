//! What a valuation of an admissible product computes: tame steps, and sweeps of rounded steps within the radii.
#![tactic(auto)]

mod rounded_sweeps;
mod scaled_steps;

pub use rounded_sweeps::sweeps_stay_near;
pub use scaled_steps::runs_are_tame_steps;
