//! Polynomials against the runs of systems: how far a Taylor polynomial stays near a run when it is followed over many
//! cells.
#![tactic(auto)]

mod polynomial_laws;

pub use polynomial_laws::{months_are_values, polynomials_follow_runs, runs_miss_little};
