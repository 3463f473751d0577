//! What a premium that is charged does to the values of a product.
#![tactic(auto)]

mod instances;
mod laws;

pub use instances::{continuous_product_is_charged, small_product_is_charged};
pub use laws::{charges_come_off, charges_come_off_lumps, charges_come_off_sojourns};
