//! Kolmogorov's equation, swept forward month by month: numbers within the radius ledger of the exact probabilities.
#![tactic(auto)]

mod equations;
mod month;
mod occupancy_table;
mod sweep;

pub use occupancy_table::occupancy;
pub use sweep::Sweep;
