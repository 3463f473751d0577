//! Laws of the model, and worked instances of its definitions.
#![tactic(auto)]

mod entry_laws;
mod equation_laws;
mod flat_laws;
mod ledger_checks;
mod number_laws;
mod rule_checks;
mod run_checks;

pub use entry_laws::{lists_keep_states, systems_have_entries, transitions_are_found};
pub use equation_laws::{cells_are_quintic, first_moments_agree, systems_solve_their_equations};
pub use flat_laws::{flat_months_add_up, flat_products_are_exact};
pub use ledger_checks::{
    century_ledgers, loads_and_numerators, product_at_the_limits, rules_at_their_limits,
    year_ledgers,
};
pub use number_laws::numerators_stand_for_bernstein;
pub use rule_checks::rules_can_be_met;
pub use run_checks::{cell_runs, patterns_pay, rows_hold_or_not};
