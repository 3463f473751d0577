//! The moments of every admissible product stay within its plans' scales.
#![tactic(auto)]

mod moments;
mod run_laws;

pub use moments::{
    reserves_stay_within_scale, runs_stay_within_scale, second_moments_stay_within_scale,
};
pub use run_laws::{months_go_by_cells, taylor_values_scale};
