//! The ten worked calls of CALLING.md. Each function says one fact and computes nothing.

ghost use Rattle.frac_laws.specs.WorkedCalls.{DifferenceOfSquares, MiddleIsHalfWay, ProductsDistributeOverSum};
ghost use Rattle.frac_laws.specs.WorkedCalls.{EighthsMakeAQuarter, GrowthKeepsOrder, BoundIsDivided};
ghost use Rattle.frac_laws.specs.WorkedCalls.{ThirdsMakeItStrict, EquationsAreUsed, SumOfSizesIsNotNegative};
ghost use Rattle.frac_laws.specs.WorkedCalls.{FloorInUnitsIsWithinOne};

/// `(a + b)(a - b) = a a - b b`.
#[tactic(auto, using(crate::proofs::WorkedCalls::difference_of_squares))]
pub fn difference_of_squares()
    ensures { DifferenceOfSquares }
{}

/// `(a + b)/2 - a = (b - a)/2`.
#[tactic(auto, using(crate::proofs::WorkedCalls::middle_is_half_way))]
pub fn middle_is_half_way()
    ensures { MiddleIsHalfWay }
{}

/// The sum of a (b + c) is the sum of a b plus the sum of a c.
#[tactic(auto, using(crate::proofs::WorkedCalls::products_distribute_over_sum))]
pub fn products_distribute_over_sum()
    ensures { ProductsDistributeOverSum }
{}

/// `x <= 2/16 and y <= 1/8 give x + y <= 1/4`.
#[tactic(auto, using(crate::proofs::WorkedCalls::eighths_make_a_quarter))]
pub fn eighths_make_a_quarter()
    ensures { EighthsMakeAQuarter }
{}

/// `a <= b and 0 <= c give a c + d <= b c + d`.
#[tactic(auto, using(crate::proofs::WorkedCalls::growth_keeps_order))]
pub fn growth_keeps_order()
    ensures { GrowthKeepsOrder }
{}

/// `w v = 1, 0 <= v and w x <= r give x <= v r`.
#[tactic(auto, using(crate::proofs::WorkedCalls::bound_is_divided))]
pub fn bound_is_divided()
    ensures { BoundIsDivided }
{}

/// `a < b and c <= d give a + c < b + d + 1/3`.
#[tactic(auto, using(crate::proofs::WorkedCalls::thirds_make_it_strict))]
pub fn thirds_make_it_strict()
    ensures { ThirdsMakeItStrict }
{}

/// `a b = c and c + d = e give a b e = e e - d e`.
#[tactic(auto, using(crate::proofs::WorkedCalls::equations_are_used))]
pub fn equations_are_used()
    ensures { EquationsAreUsed }
{}

/// `0 <= a gives 0 <= |x| + 3/2 a^n (|v0| |v1| + |v1| |v2| + ..)`.
#[tactic(auto, using(crate::proofs::WorkedCalls::sum_of_sizes_is_not_negative))]
pub fn sum_of_sizes_is_not_negative()
    ensures { SumOfSizesIsNotNegative }
{}

/// `n/d and floor(n/d), in any unit, are less than one unit apart`.
#[tactic(auto, using(crate::proofs::WorkedCalls::floor_in_units_is_within_one))]
pub fn floor_in_units_is_within_one()
    ensures { FloorInUnitsIsWithinOne }
{}
