//! Tolerances, radii and costs, beside numbers that were computed outside. Each function says what they are and returns
//! at once.

ghost use Rattle.product_instances.specs.LedgerRows.{RowsInTheMiddle, RowsAtIssue, ForwardRadius};
ghost use Rattle.product_instances.specs.LedgerRows.{CostOfStretches};

/// Tolerances of rows in the middle of the term and at issue, each by its own month, and the forward radius.
pub fn rows_have_tolerances()
    ensures middle { RowsInTheMiddle }
    ensures issue { RowsAtIssue }
    ensures forward { ForwardRadius }
{}

/// The cost of months in which nothing changes, and of months that vary; and a bound.
pub fn stretches_cost()
    ensures { CostOfStretches }
{}
