//! Worked products, beside numbers that were computed outside.
#![tactic(auto)]

mod flat_rows;
mod further_runs;
mod late_start;
mod ledger_rows;
mod rule_limits;

pub use flat_rows::{certain_rows_hold, premium_rows_hold_or_not, value_is_of_the_start};
pub use further_runs::{further_moments, further_probabilities, further_reserves};
pub use late_start::nobody_has_left;
pub use ledger_rows::{rows_have_tolerances, stretches_cost};
pub use rule_limits::rules_break_in_order;
