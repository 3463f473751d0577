//! Finds the first place at which the tree of a product file breaks each of rules 1 to 14.
#![tactic(auto)]

mod bounds;
mod head;
mod held;
mod lump;
mod names;
mod pattern;
mod pieces;
mod sizes;
mod steps;
#[cfg(test)]
mod tests;
mod transition;
mod verdict;

pub use verdict::first_break;
