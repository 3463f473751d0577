//! The numbers of a product by months, and the rules that they obey: intensities, interest, growth, payments, and the
//! ledgers that bound a valuation.
#![tactic(auto)]

mod admission;
mod admitted;
mod bounds;
mod cells;
mod curves;
mod exits;
mod extremes;
mod first_month;
mod growth;
mod ledgers;
mod lumps;
mod pay;
mod plan_bound;
mod radii;
mod rates;
mod rules;
mod second_radii;
mod sums;
mod table;

pub use admission::{AdmitError, admit};
pub use admitted::Admitted;
pub use bounds::{MonthBounds, month_bounds};
pub use curves::{MonthCurves, month_curves};

#[cfg(test)]
mod tests;
