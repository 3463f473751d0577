//! Fractions that are written as quotients of whole numbers. Each function says one law and computes nothing.

ghost use Rattle.frac_laws.specs.QuotientLaws.{QuotientsCompareByCross, QuotientsAreBelowByCross};
ghost use Rattle.frac_laws.specs.QuotientLaws.{QuotientsAreEqualByCross};
ghost use Rattle.frac_laws.specs.QuotientLaws.{QuotientsAdd, QuotientsAddOverOneDivisor, QuotientsMultiply};
ghost use Rattle.frac_laws.specs.QuotientLaws.{QuotientsHaveOpposites, QuotientsCancel};
ghost use Rattle.frac_laws.specs.QuotientLaws.{QuotientsTimesDivisor};
ghost use Rattle.frac_laws.specs.QuotientLaws.{WholeNumbersCompare, WholeNumbersAdd, WholeNumbersMultiply};

/// `n/d <= m/e` exactly where `n e <= m d`.
#[tactic(auto, using(crate::proofs::QuotientFacts::compare_by_cross))]
pub fn quotients_compare_by_cross()
    ensures { QuotientsCompareByCross }
{}

/// `n/d < m/e` exactly where `n e < m d`.
#[tactic(auto, using(crate::proofs::QuotientFacts::below_by_cross))]
pub fn quotients_are_below_by_cross()
    ensures { QuotientsAreBelowByCross }
{}

/// `n/d = m/e` exactly where `n e = m d`.
#[tactic(auto, using(crate::proofs::QuotientFacts::equal_by_cross))]
pub fn quotients_are_equal_by_cross()
    ensures { QuotientsAreEqualByCross }
{}

/// `n/d + m/d = (n + m)/d`.
#[tactic(auto, using(crate::proofs::QuotientFacts::add_over_one))]
pub fn quotients_add_over_one_divisor()
    ensures { QuotientsAddOverOneDivisor }
{}

/// `n/d + m/e = (n e + m d)/(d e)`.
#[tactic(auto, using(crate::proofs::QuotientFacts::add_across))]
pub fn quotients_add()
    ensures { QuotientsAdd }
{}

/// `n/d * m/e = (n m)/(d e)`.
#[tactic(auto, using(crate::proofs::QuotientFacts::multiply))]
pub fn quotients_multiply()
    ensures { QuotientsMultiply }
{}

/// `-(n/d) = (-n)/d`.
#[tactic(auto, using(crate::proofs::QuotientFacts::opposites))]
pub fn quotients_have_opposites()
    ensures { QuotientsHaveOpposites }
{}

/// `(n c)/(d c) = n/d`.
pub fn quotients_cancel()
    ensures { QuotientsCancel }
{}

/// `d * (n/d) = n`.
#[tactic(auto, using(crate::proofs::QuotientFacts::times_divisor))]
pub fn quotients_times_divisor()
    ensures { QuotientsTimesDivisor }
{}

/// Whole numbers compare as fractions as they do as whole numbers.
#[tactic(auto, using(crate::proofs::QuotientFacts::whole_compare))]
pub fn whole_numbers_compare()
    ensures { WholeNumbersCompare }
{}

/// Whole numbers add as fractions as they do as whole numbers.
#[tactic(auto, using(crate::proofs::QuotientFacts::whole_sum))]
pub fn whole_numbers_add()
    ensures { WholeNumbersAdd }
{}

/// Whole numbers multiply as fractions as they do as whole numbers.
#[tactic(auto, using(crate::proofs::QuotientFacts::whole_product))]
pub fn whole_numbers_multiply()
    ensures { WholeNumbersMultiply }
{}
