//! Sweeps of rounded steps. The function says laws and returns at once.

ghost use Rattle.sweep_laws.specs.SweepLaws.{SweepsStayNear, ForwardSweepsStayNear};
ghost use Rattle.sweep_laws.specs.PairSweepLaws.{PairSweepsStayNear};

/// A sweep of rounded steps stays within the radius ledgers of the exact run: backward for the first moments of both
/// plans and for both moments of the payment plan, and forward for the probabilities.
pub fn sweeps_stay_near()
    ensures backward { SweepsStayNear }
    ensures both { PairSweepsStayNear }
    ensures forward { ForwardSweepsStayNear }
{}
