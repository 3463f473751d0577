//! Reads product files: from bytes to a product, or to the first rule that they break.
#![tactic(auto)]

mod curves;
mod head;
mod payments;
mod product;
mod read;

pub use read::{ReadError, read_product};

#[cfg(test)]
mod tests;
