//! Whole numbers in units of 2^-64: each call is exact but for one rounding in a stated direction.
#![tactic(auto)]

mod dot_product;
mod fraction;
mod scaling;
mod word_product;

pub use dot_product::dot;
pub use fraction::{Fix, from_fraction};
pub use scaling::{scale_ceil, scale_floor};
pub use word_product::{dot_words, products_at};
