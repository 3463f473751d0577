//! The sheets of answers, for spreadsheets and other programs.
#![tactic(auto)]

mod audits;
mod comparisons;
mod fields;
mod laws;
mod portfolios;
mod reports;
#[cfg(test)]
mod tests;

pub use audits::audit_sheet;
pub use comparisons::changes_sheet;
pub use laws::{no_row_is_left_out, rows_are_objects};
pub use portfolios::totals_sheet;
pub use reports::report_sheet;
