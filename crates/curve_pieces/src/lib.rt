//! Curves by pieces: intensities and the force of interest, and exact polynomials of them in a cell or a month. The
//! search for the piece of a month serves payments by steps too.
#![tactic(auto)]

mod cell;
mod curve;
mod piece;
mod rules;
mod search;

pub use cell::{CellPoly, Dir};
pub use curve::{Curve, CurveError};
pub use piece::Piece;
pub use search::{Starts, last_start};

#[cfg(test)]
mod tests;
