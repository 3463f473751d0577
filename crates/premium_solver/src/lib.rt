//! The equivalence premium: the value of the benefits by the value of the premium pattern, as an interval.
#![tactic(auto)]

mod premium;
mod quotients;

pub use premium::{PremiumError, solve};
pub use quotients::{TooSmall, quotient};

#[cfg(test)]
mod tests;
