//! Reserves that hold whichever grid they are taken on: cells of a 32nd of a month, or whole months.
#![tactic(auto)]

mod grid_reserves;
#[cfg(test)]
mod tests;

pub use grid_reserves::month_reserves;
