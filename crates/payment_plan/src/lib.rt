//! Payments of a product: what is paid in a month, at a date and when a transition happens, by benefits and by the
//! premium pattern.
#![tactic(auto)]

mod amount;
mod dates;
mod load;
mod lump;
mod pattern;
mod plan;
mod step;

pub use amount::amount_cell;
pub use load::amount_load;
pub use lump::Lump;
pub use pattern::{PatternRule, Which};
pub use plan::Plan;
pub use step::StepAmount;

#[cfg(test)]
mod tests;
