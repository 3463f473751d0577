//! The payments of a plan. Each function says laws and returns at once.

ghost use Rattle.ledger_laws.specs.PaymentLaws.{PatternLoadsAreSmall, PaymentLoadsAreSmall};
ghost use Rattle.ledger_laws.specs.PaymentLaws.{PatternPaysLittle, PaymentsPayLittle};

/// Loads, sums and lumps over the term, in minor units: at most 9 * 10^12 and 10^12, and at most 1 for the premium
/// pattern.
pub fn loads_are_small()
    ensures payments { PaymentLoadsAreSmall }
    ensures pattern { PatternLoadsAreSmall }
{}

/// What a state pays a year, and what a cell may add to the bound ledger in 1/1024 minor units: at most 144 * 10^12,
/// and at most 6 for the premium pattern.
pub fn pay_is_small()
    ensures payments { PaymentsPayLittle }
    ensures pattern { PatternPaysLittle }
{}
