//! Polynomials of degree at most five with whole coefficients, exactly.
#![tactic(auto)]

mod bernstein;
mod poly;
mod value;

pub use poly::Poly;
