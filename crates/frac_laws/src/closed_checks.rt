//! Three closed statements, which compute. Each function says one and computes nothing.

ghost use Rattle.frac_laws.specs.ClosedChecks.{ThirdTaylorValue, LongQuotientsAreOrdered};
ghost use Rattle.frac_laws.specs.ClosedChecks.{ProductOfTenTerms};

/// The Taylor value of degree 3 of `y' = -y/2` from 1 at 1 is 29/48.
#[tactic(auto, using(crate::proofs::ClosedProofs::third_taylor_value))]
pub fn third_taylor_value()
    ensures { ThirdTaylorValue }
{}

/// An order between two fractions with 20 digits above and below.
#[tactic(auto, using(crate::proofs::ClosedProofs::long_quotients))]
pub fn long_quotients_are_ordered()
    ensures { LongQuotientsAreOrdered }
{}

/// A product of two lists of ten terms.
#[tactic(auto, using(crate::proofs::ClosedProofs::product_of_ten))]
pub fn product_of_ten_terms()
    ensures { ProductOfTenTerms }
{}
