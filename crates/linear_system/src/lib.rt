//! Systems `y' = A(x) y + g(x)` on [0, 1] with polynomial entries, as whole numbers in units of 2^-64.
#![tactic(auto)]

mod row;
mod system;

pub use system::CellSystem;
