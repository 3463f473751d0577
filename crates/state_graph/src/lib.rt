//! The states of a product and the transitions between them, with the exits of each state.
#![tactic(auto)]

mod exits;
mod graph;

pub use exits::Edge;
pub use graph::Graph;

#[cfg(test)]
mod tests;
