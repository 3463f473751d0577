//! Months in which nothing varies, and whether one goes on with the month before: they need one month map together.
#![tactic(auto)]

mod constant;
mod first;
mod stretch;

pub use constant::is_constant_month;
pub use stretch::continues_stretch;
