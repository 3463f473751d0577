//! The equations of a cell as a stored system: curves and payments of a product, rounded once to units of 2^-64.
#![tactic(auto)]

mod fine;
mod forward;
mod forward_places;
mod job;
mod lookup;
mod lump_sums;
mod numbers;
mod paid;
mod pair_job;
mod pair_places;
mod pair_row;
mod pair_write;
mod places;
mod row;
mod second_lumps;
mod twice;
mod write;

pub use forward::fill_forward;
pub use forward_places::forward_system_for;
pub use job::{Job, fill};
pub use lump_sums::{apply_first, lump_of};
pub use pair_job::fill_moments;
pub use pair_places::moments_system_for;
pub use places::system_for;
pub use second_lumps::apply_second;
