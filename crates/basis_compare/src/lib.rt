//! Two bases of a product: the change of each reserve from one to the other, split into the step of the interest and
//! the rest, with its sign where it is proved.
#![tactic(auto)]

mod change_rows;
mod changes_text;
mod comparison;
mod copies;
mod differences;
mod differing;
mod hybrid_record;
mod printed_tables;
#[cfg(test)]
mod tests;

pub use change_rows::{Change, Changes, Part, Turn};
pub use changes_text::changes_bytes;
pub use comparison::compare;
pub use differing::CompareBreak;
pub use hybrid_record::{CompareError, hybrid};
