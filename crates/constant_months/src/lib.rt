//! Months in which nothing varies: one system for all cells of a stretch, its turns as the month's run, and the steps
//! that a valuation takes.
#![tactic(auto)]

mod costs;
mod month_systems;
mod month_turns;

pub use costs::costs_split;
pub use month_systems::constant_months_are_one_system;
pub use month_turns::months_are_turns;
