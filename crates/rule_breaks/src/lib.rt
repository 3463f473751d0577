//! Where a file breaks a rule: one type for all crates that look for broken rules, and what it stands for.
#![tactic(auto)]

mod breaks;

pub use breaks::{RowBreak, RuleBreak};

#[cfg(test)]
mod tests;
