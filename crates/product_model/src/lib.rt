//! Products: a name, states and transitions, a term, curves and payments that obey the product's rules together.
#![tactic(auto)]

mod lawful;
mod laws;
mod product;

pub use laws::{exits_agree, pairs_agree, plans_agree};
pub use product::Product;
pub use rule_breaks::{RowBreak, RuleBreak};

#[cfg(test)]
mod tests;
