//! Texts of product files, beside what the rules say of them.
#![tactic(auto)]

mod file_texts;

pub use file_texts::texts_read;
