//! Product files changed: a force of interest that is shifted, an intensity that is multiplied, a premium that is
//! charged.
#![tactic(auto)]

mod assembly;
mod basis;
mod breaks;
mod charged;
mod charged_sojourns;
mod charged_steps;
mod charging;
mod coefficients;
mod completing;
mod copies;
mod curves;
mod finer;
mod going_on;
mod later;
mod laws;
mod less;
mod rates;
mod shifting;
mod sojourners;
mod step_sizes;
#[cfg(test)]
mod tests;

pub use breaks::{ChangeBreak, ChangeError};
pub use charging::charge;
pub use laws::charged_products_are_well_formed;
pub use shifting::{multiply, shift};
