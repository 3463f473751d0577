//! The rows of an answer as fields, and their texts as CSV and as JSON.
#![tactic(auto)]

mod about;
mod csv_form;
mod field;
mod json_form;
mod json_parts;
mod sheet;
#[cfg(test)]
mod tests;

pub use about::About;
pub use csv_form::csv_bytes;
pub use field::Field;
pub use json_form::json_bytes;
pub use sheet::Sheet;
