//! The bounds of plans. Each function says laws and returns at once.

ghost use Rattle.ledger_laws.specs.PlanBoundLaws.{AdmissibleScaleIsSmall, PatternBoundStaysSmall};
ghost use Rattle.ledger_laws.specs.PlanBoundLaws.{PaymentBoundStaysSmall, PlanBoundStaysSmall};

/// The bound of a plan is at most 2^26 times the most that its start, a date or a cell adds; the payment plan's is
/// below 2^80, in 1/1024 minor units, and at most 2^66 for an admissible product.
pub fn plan_bound_stays_small()
    ensures plans { PlanBoundStaysSmall }
    ensures payments { PaymentBoundStaysSmall }
    ensures admissible { AdmissibleScaleIsSmall }
{}

/// The premium pattern's bound is below 2^39, and its scale at most 26.
pub fn pattern_bound_stays_small()
    ensures { PatternBoundStaysSmall }
{}
