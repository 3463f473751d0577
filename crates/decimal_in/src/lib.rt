//! Numbers in texts of bytes: whole numbers, and decimals as whole numbers of millionths or of their last place. Takes
//! no memory.
#![tactic(auto)]

mod decimals;
mod laws;
mod places;
mod written;

pub use decimals::{millionths, signed_whole, unsigned_millionths, whole};
pub use laws::{decimals_have_millionths, sizes_are_small};
pub use places::{decimal, unsigned_decimal};
pub use written::Decimal;

#[cfg(test)]
mod tests;
