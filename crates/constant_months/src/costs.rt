//! The cost of a valuation in steps. The function says laws and returns at once.

ghost use Rattle.constant_months.specs.Costs.{CostsSplit, StepsAreFew, CostsAreSmall};

/// The cost is what the maps of the stretches take and what the cells of the months that vary take; both together are
/// at most 32 steps a month.
pub fn costs_split()
    ensures split { CostsSplit }
    ensures few { StepsAreFew }
    ensures small { CostsAreSmall }
{}
