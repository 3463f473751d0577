//! Thiele's equation, swept backward month by month: numbers within the radius ledger of the exact reserves.
#![tactic(auto)]

mod costs;
mod equations;
mod month;
mod reserve_table;
mod stretch_maps;
mod sweep;
mod valuation;

pub use reserve_table::reserves;
pub use sweep::{MonthRow, Sweep};
pub use valuation::value;
