//! Generated product files: a disability annuity with death sums and a premium, by a seed.
#![tactic(auto)]

mod curves;
mod draws;
mod generate;
mod laws;
mod tables;
#[cfg(test)]
mod tests;
mod transition;

pub use generate::make;
pub use laws::generated_trees_are_valid;
