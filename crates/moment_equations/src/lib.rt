//! Norberg's equations, swept backward month by month: tables of first moments, second moments and variances.
#![tactic(auto)]

mod ends;
mod equations;
mod month;
mod tables;
mod valuation;

pub use valuation::moments;

#[cfg(test)]
mod tests;
