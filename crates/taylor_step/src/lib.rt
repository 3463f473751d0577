//! One cell: the Taylor value of a stored system, on whole numbers in units of 2^-64, to the degree from which on
//! little follows.
#![tactic(auto)]

mod degree;
mod run;
mod steps;
mod strips;
mod taylor;
#[cfg(test)]
mod tests;
mod work;

pub use steps::Steps;
pub use taylor::step;
pub use work::Work;
