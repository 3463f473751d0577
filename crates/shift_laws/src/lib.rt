//! Shifted polynomials: their products, derivatives, sizes and values.
#![tactic(auto)]

mod shift_laws;

pub use shift_laws::{shifts_keep_products, shifts_keep_sizes, shifts_take_values};
