//! The size of a fraction. Each function says one law and computes nothing.

ghost use Rattle.frac_laws.specs.SizeLaws.{SizeIsNotNegative, SizeIsWithin, SizeOfSum};
ghost use Rattle.frac_laws.specs.SizeLaws.{SizeOfProduct, SizeOfOpposite};

/// `0 <= |x|`.
#[tactic(auto, using(crate::proofs::Sizes::size_natural))]
pub fn size_is_not_negative()
    ensures { SizeIsNotNegative }
{}

/// `|x| <= r exactly where -r <= x <= r`.
#[tactic(auto, using(crate::proofs::SizeFacts::within))]
pub fn size_is_within()
    ensures { SizeIsWithin }
{}

/// `|x + y| <= |x| + |y|`.
#[tactic(auto, using(crate::proofs::Sizes::size_add))]
pub fn size_of_sum()
    ensures { SizeOfSum }
{}

/// `|x y| = |x| |y|`.
#[tactic(auto, using(crate::proofs::Sizes::size_mul))]
pub fn size_of_product()
    ensures { SizeOfProduct }
{}

/// `|-x| = |x|`.
#[tactic(auto, using(crate::proofs::SizeFacts::opposite_size))]
pub fn size_of_opposite()
    ensures { SizeOfOpposite }
{}
