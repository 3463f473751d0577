//! A worked product with all that a product may have: the premises of the laws of every admissible product can be met.
#![tactic(auto)]

mod cover_cells;

pub use cover_cells::{cover_has_ledgers, cover_has_norms, cover_is_admissible};
