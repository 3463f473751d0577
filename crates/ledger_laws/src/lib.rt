//! How small the month numbers, payments and ledgers of a valuation stay.
#![tactic(auto)]

mod before_term_laws;
mod bound_laws;
mod growth_laws;
mod month_laws;
mod payment_laws;
mod plan_bound_laws;
mod second_laws;

pub use before_term_laws::ledgers_before_term;
pub use bound_laws::{bound_has_all_parts, bound_never_falls, scale_bounds_all};
pub use growth_laws::{ledgers_grow, long_ledgers_stay_small, radii_stay_small};
pub use month_laws::{admissible_products_obey, month_numbers_are_small};
pub use payment_laws::{loads_are_small, pay_is_small};
pub use plan_bound_laws::{pattern_bound_stays_small, plan_bound_stays_small};
pub use second_laws::{second_is_fourfold, second_stays_small};
