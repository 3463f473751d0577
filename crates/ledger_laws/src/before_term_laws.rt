//! The ledgers by the months that are left to the term. The function says laws and returns at once.

ghost use Rattle.ledger_laws.specs.BeforeTermLaws.{BoundIsGreatestBeforeTerm, RadiusStaysSmallBeforeTerm};
ghost use Rattle.ledger_laws.specs.BeforeTermLaws.{SecondIsFourfoldBeforeTerm};

/// Each value on the way of the three ledgers from the term to issue: with the lumps of a date (after no cell) and
/// after each cell of a month.
pub fn ledgers_before_term()
    ensures radius { RadiusStaysSmallBeforeTerm }
    ensures bound { BoundIsGreatestBeforeTerm }
    ensures second { SecondIsFourfoldBeforeTerm }
{}
