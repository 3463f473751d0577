//! Two independent lives as one product: the chain of the pairs of their states.
#![tactic(auto)]

mod breaks;
mod joining;
mod laws;
mod moves;
mod pairs;
mod payments;
mod rates;
#[cfg(test)]
mod tests;

pub use breaks::JoinBreak;
pub use joining::{JoinError, join};
pub use laws::{joint_records_are_well_formed, marginals_are_single_lives};
