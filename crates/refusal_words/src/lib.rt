//! The lines that stand under a refusal, in plain English.
#![tactic(auto)]

mod file_places;
mod findings;
mod found;
mod key_texts;
mod laws;
mod names;
mod other_keys;
mod owners;
mod part_texts;
mod places;
mod plain_places;
mod row_findings;
mod row_texts;
mod rule_texts;
mod rules;
#[cfg(test)]
mod tests;
mod toml_texts;

pub use laws::{names_are_of_the_rules, places_are_told};
pub use part_texts::{
    change_lines, compare_lines, join_lines, length_lines, premium_lines, words_lines,
};
pub use places::{Place, Thing};
pub use row_texts::{CsvTable, row_lines};
pub use rule_texts::{derived_lines, rule_lines};
pub use rules::Rule;
pub use toml_texts::toml_lines;
