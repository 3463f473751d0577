//! The second radius. Each function says laws and returns at once.

ghost use Rattle.ledger_laws.specs.SecondLaws.{SecondGoesBack, SecondIsFourfold, SecondStaysSmall};

/// The second radius of a plan is at most four times the first one at each date, and 5 units more with the date's
/// lumps and after each cell of a month.
pub fn second_is_fourfold()
    ensures goes_back { SecondGoesBack }
    ensures fourfold { SecondIsFourfold }
{}

/// The payment plan's second radius is below 2^41 units, and so is each value on the way to it.
pub fn second_stays_small()
    ensures { SecondStaysSmall }
{}
