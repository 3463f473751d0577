//! Intervals of numbers in units of 2^-64, whose calls enclose every exact result, and tables of printed ends.
#![tactic(auto)]

mod affine;
mod around;
mod interval;
mod printed;
mod products;
mod tables;
mod whole;

pub use affine::affine_apply;
pub use interval::Interval;
pub use printed::Printed;
pub use tables::{MomentTable, PremiumTable, Table, Valued};
pub use whole::{whole_ceil, whole_floor};

#[cfg(test)]
mod tests;
