//! A caller of the library: from the bytes of a product file to the text of its yearly reserves, by five calls.
#![tactic(auto)]

mod yearly;

pub use yearly::{Refusal, yearly_reserves};

#[cfg(test)]
mod tests;
