//! Reports and the texts that the program writes.
#![tactic(auto)]

mod check_text;
mod limits;
mod load_text;
mod report;
mod report_text;
mod results;
mod table_rows;
mod tolerances;

pub use check_text::check_bytes;
pub use load_text::load_bytes;
pub use report::{Kind, Report};
pub use report_text::report_bytes;
pub use results::{from_moments, from_premium, from_table, from_value};

#[cfg(test)]
mod tests;
