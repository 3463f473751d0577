//! The map of a month whose cells are all alike: made once, doubled five times, applied once a month.
#![tactic(auto)]

mod applying;
mod map;
mod squaring;
mod starting;
#[cfg(test)]
mod tests;

pub use map::MonthMap;
