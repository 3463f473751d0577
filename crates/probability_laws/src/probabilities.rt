//! The probabilities of an admissible product. Each function says laws and returns at once.

ghost use Rattle.probability_laws.specs.ProbabilityLaws.{ForwardCellsAreSmall, SmallForwardCellsGrowLittle};
ghost use Rattle.probability_laws.specs.ProbabilityLaws.{ProbabilitiesAddUpToOne, ProbabilitiesStaySmall};
ghost use Rattle.probability_laws.specs.ProbabilitiesFrom.{ProbabilitiesGoOn, TotalsAreKept, SizesStaySmall};
ghost use Rattle.probability_laws.specs.ProbabilitiesFrom.{FromAnyState};

/// A forward cell enlarges no vector by more than 1/76800 of it, in each degree from 8 on.
pub fn forward_cells_grow_little()
    ensures cells { ForwardCellsAreSmall }
    ensures growth { SmallForwardCellsGrowLittle }
{}

/// At each date and after each cell the probabilities add up to one in every degree, and their sizes to at most two
/// in each degree from 8 on.
pub fn probabilities_add_up()
    ensures one { ProbabilitiesAddUpToOne }
    ensures sizes { ProbabilitiesStaySmall }
{}

/// A run may begin at any date: what its vector adds up to is kept in every degree, and sizes that add up to at most
/// one stay within two in each degree from 8 on. So it is from any start state. The run from issue goes on from each of
/// its own values.
pub fn runs_begin_anywhere()
    ensures go_on { ProbabilitiesGoOn }
    ensures totals { TotalsAreKept }
    ensures sizes { SizesStaySmall }
    ensures any_state { FromAnyState }
{}
