//! Ledgers, rules and costs of small products, beside numbers that were computed by hand or by another
//! program. Each function says what they come to and returns at once.

ghost use Rattle.model_laws.specs.LedgerInstances.{FlatLedgers, FlatPay, DiscountedLedgers};
ghost use Rattle.model_laws.specs.LedgerInstances.{DiscountedGrowth, CenturyScales, RingScale, Costs};
ghost use Rattle.model_laws.specs.LedgerInstances.{LimitsCheck, FallingNumerators, GrowingLoads};
ghost use Rattle.model_laws.specs.LedgerInstances.{FallingRates, LargestRates, LargestExchange};
ghost use Rattle.model_laws.specs.LedgerInstances.{TooLargeExchange, FarTooLargeExchange};

/// A year of a constant payment, and a lump after a year of interest.
pub fn year_ledgers()
    ensures flat { FlatLedgers }
    ensures flat_pay { FlatPay }
    ensures discounted { DiscountedLedgers }
    ensures discounted_growth { DiscountedGrowth }
{}

/// A lump, the largest annuity and a ring of eight states over a century, and two costs.
pub fn century_ledgers()
    ensures scales { CenturyScales }
    ensures ring { RingScale }
    ensures costs { Costs }
{}

/// A product of two years that is at several limits at once.
pub fn product_at_the_limits()
    ensures { LimitsCheck }
{}

/// The Bernstein coefficients of a falling rate, and the loads of a growing payment.
pub fn loads_and_numerators()
    ensures numerators { FallingNumerators }
    ensures loads { GrowingLoads }
{}

/// What rules 16, 17 and 18 still take, and what they first refuse.
pub fn rules_at_their_limits()
    ensures falling { FallingRates }
    ensures rates { LargestRates }
    ensures largest { LargestExchange }
    ensures too_large { TooLargeExchange }
    ensures far_too_large { FarTooLargeExchange }
{}
