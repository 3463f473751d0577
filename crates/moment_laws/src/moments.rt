//! The moments of an admissible product. Each function says laws and returns at once.

ghost use Rattle.moment_laws.specs.MomentLaws.{LedgerCarriesReserves, ReservesStayWithinScale};
ghost use Rattle.moment_laws.specs.RunsFrom.{RunsGoOn, LedgerCarriesRuns, RunsStayWithinScale};
ghost use Rattle.moment_laws.specs.SecondMomentLaws.{LedgerCarriesMoments, SecondMomentsStayWithinScale};

/// In each degree from 6 on and of both plans, the bound ledger carries the first moments at each date, with the date's
/// lumps and after each cell of a month, so none of them is above the plan's scale.
pub fn reserves_stay_within_scale()
    ensures ledger { LedgerCarriesReserves }
    ensures scale { ReservesStayWithinScale }
{}

/// So it is with each run that begins at any date from any vector within the bound ledger there. The run from the term,
/// which begins with zeros, goes on from each of its own values.
pub fn runs_stay_within_scale()
    ensures go_on { RunsGoOn }
    ensures ledger { LedgerCarriesRuns }
    ensures scale { RunsStayWithinScale }
{}

/// And the square of the ledger carries the second moments, so none of the payment plan's is above the square of its
/// scale.
pub fn second_moments_stay_within_scale()
    ensures ledger { LedgerCarriesMoments }
    ensures scale { SecondMomentsStayWithinScale }
{}
