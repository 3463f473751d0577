//! Products as texts of product files of format 2, whatever the format that they were read from.
#![tactic(auto)]

mod curves;
mod head;
mod laws;
mod payments;
mod tables;
#[cfg(test)]
mod tests;
mod tree;
mod upgraded_text;

pub use laws::file_trees_read;
pub use upgraded_text::upgrade;
