//! Columns behind a report: texts that grow by a line for each row that is noted.
#![tactic(auto)]

mod all_columns;
mod column;
mod columns;
mod lines;
mod note;
#[cfg(test)]
mod tests;

pub use all_columns::{push_columns, tell_rows};
pub use column::Column;
pub use columns::{CsvColumn, SignColumn, WidthColumn};
pub use lines::push_number;
pub use note::{Note, What};
