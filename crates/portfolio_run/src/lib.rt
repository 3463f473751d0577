//! Sums up the reserves of many contracts by group.
#![tactic(auto)]

mod fields;
mod names;
mod policies;
mod reading;
mod sums;
mod totals;
mod totals_text;
mod valued;

pub use fields::{Fault, is_group_name};
pub use names::Names;
pub use policies::Policies;
pub use reading::{PolicyError, read_policies};
pub use totals::{Total, Totals};
pub use totals_text::totals_bytes;

#[cfg(test)]
mod tests;
