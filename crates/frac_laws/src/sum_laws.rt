//! Sums, powers and products of lists. Each function says one law and computes nothing.

ghost use Rattle.frac_laws.specs.SumLaws.{SumOfSums, SumOfMultiples, SumsExchange};
ghost use Rattle.frac_laws.specs.SumLaws.{SizeOfSumIsWithinSizes, PowersAdd, PowersOfProducts};
ghost use Rattle.frac_laws.specs.SumLaws.{PowersSum, TailOfEighthsIsSmall, TotalOfListProduct};
ghost use Rattle.frac_laws.specs.SumLaws.{NumbersOfListProduct, ConvolutionTotal};
ghost use Rattle.frac_laws.specs.SumLaws.{SumOfOneTerm, ConvolutionIsWithinTotals};

/// The sum of f + g.
#[tactic(auto, using(crate::proofs::Sums::sum_to_add))]
pub fn sum_of_sums()
    ensures { SumOfSums }
{}

/// The sum of c f.
#[tactic(auto, using(crate::proofs::Sums::sum_to_scale))]
pub fn sum_of_multiples()
    ensures { SumOfMultiples }
{}

/// The order of two sums may be changed.
#[tactic(auto, using(crate::proofs::Sums::sum_to_exchange))]
pub fn sums_exchange()
    ensures { SumsExchange }
{}

/// The size of a sum is at most the sum of the sizes.
#[tactic(auto, using(crate::proofs::SumFacts::sizes))]
pub fn size_of_sum_is_within_sizes()
    ensures { SizeOfSumIsWithinSizes }
{}

/// A sum in which one term alone is not 0 is that term.
pub fn sum_of_one_term()
    ensures { SumOfOneTerm }
{}

/// `x^(n + m) = x^n x^m`.
#[tactic(auto, using(crate::proofs::Powers::power_add))]
pub fn powers_add()
    ensures { PowersAdd }
{}

/// `(x y)^n = x^n y^n`.
#[tactic(auto, using(crate::proofs::Powers::power_mul))]
pub fn powers_of_products()
    ensures { PowersOfProducts }
{}

/// `(1 + q + .. + q^(n-1)) (1 - q) = 1 - q^n`.
#[tactic(auto, using(crate::proofs::Powers::geometric_sum))]
pub fn powers_sum()
    ensures { PowersSum }
{}

/// Where 8^k v(k) <= B from s on: 7 * 8^s (v(s) + .. + v(s + r - 1)) <= 8 B.
#[tactic(auto, using(crate::proofs::GeometricTails::tail_of_eighths))]
pub fn tail_of_eighths_is_small()
    ensures { TailOfEighthsIsSmall }
{}

/// The total of a product of lists is the product of the totals.
#[tactic(auto, using(crate::proofs::SumFacts::list_total))]
pub fn total_of_list_product()
    ensures { TotalOfListProduct }
{}

/// A product of lists has the convolution of the numbers.
#[tactic(auto, using(crate::proofs::SumFacts::list_numbers))]
pub fn numbers_of_list_product()
    ensures { NumbersOfListProduct }
{}

/// The total of a convolution.
#[tactic(auto, using(crate::proofs::Convolutions::convolution_total))]
pub fn convolution_has_total()
    ensures { ConvolutionTotal }
{}

/// For numbers that are not negative, the total of a convolution is at most the product of the totals.
#[tactic(auto, using(crate::proofs::SumFacts::within_totals))]
pub fn convolution_is_within_totals()
    ensures { ConvolutionIsWithinTotals }
{}
