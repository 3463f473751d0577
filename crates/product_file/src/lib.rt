//! Definitions of the product file: what its tree reads as, rule by rule, and the verdict on its bytes.
#![tactic(auto)]

mod read_checks;
mod read_laws;

pub use read_checks::files_read;
pub use read_laws::read_products_are_well_formed;
