//! Roundings and scales of the ledgers. Each function says one law and computes nothing.

ghost use Rattle.frac_laws.specs.LedgerLaws.{BoundHasScale, ScaleIsUnique};
ghost use Rattle.frac_laws.specs.LedgerLaws.{RoundedUpIsAtLeast, RoundedUpIsWithinOne};

/// A quotient that is rounded up is at least the quotient.
#[tactic(auto, using(crate::proofs::LedgerFacts::rounded_up_le))]
pub fn rounded_up_is_at_least()
    ensures { RoundedUpIsAtLeast }
{}

/// It is less than one above it.
#[tactic(auto, using(crate::proofs::LedgerFacts::rounded_up_lt))]
pub fn rounded_up_is_within_one()
    ensures { RoundedUpIsWithinOne }
{}

/// `scale_of_bound` is the least `g` with `1024 * 2^g` at or above the bound.
pub fn bound_has_scale()
    ensures { BoundHasScale }
{}

/// A bound has one scale.
#[tactic(auto, using(crate::proofs::LedgerFacts::one_scale))]
pub fn scale_is_unique()
    ensures { ScaleIsUnique }
{}
