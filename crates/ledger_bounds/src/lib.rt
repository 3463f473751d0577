//! The whole-number formulas of the ledgers: growth over a cell, scale of a bound, tolerances of a report.
#![tactic(auto)]

mod growth;
mod scale;
mod tolerance;

pub use growth::grow;
pub use scale::scale_of;
pub use tolerance::{tolerance_first, tolerance_second, tolerance_variance};
