//! The probabilities of every admissible product add up to one, and their sizes to at most two.
#![tactic(auto)]

mod probabilities;

pub use probabilities::{forward_cells_grow_little, probabilities_add_up, runs_begin_anywhere};
