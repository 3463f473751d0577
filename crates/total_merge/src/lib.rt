//! Merges tables of totals by group into one.
#![tactic(auto)]

mod fields;
mod laws;
mod merging;
mod reading;
mod summing;

pub use fields::Fault;
pub use laws::{
    order_matters_not, sums_are_held, sums_are_narrow, tables_have_one_reading, totals_are_held,
};
pub use merging::merge;
pub use reading::MergeError;

#[cfg(test)]
mod tests;
