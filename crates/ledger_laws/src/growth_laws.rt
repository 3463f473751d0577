//! The growth of ledgers. Each function says laws and returns at once.

ghost use Rattle.ledger_laws.specs.GrowthLaws.{CellsNeverFall, GrowthKeepsOrder, LongLedgersStaySmall};
ghost use Rattle.ledger_laws.specs.GrowthLaws.{RadiiStaySmall, RadiiStaySmallInside, RadiusGoesBack};

/// Ledgers keep their order, and never fall.
pub fn ledgers_grow()
    ensures order { GrowthKeepsOrder }
    ensures cells { CellsNeverFall }
{}

/// A ledger of 1200 months that adds the same in each cell is at most 2^26 times one more than that.
pub fn long_ledgers_stay_small()
    ensures { LongLedgersStaySmall }
{}

/// The backward and the forward radius are below 2^39 units, at each date and after each cell of a month.
pub fn radii_stay_small()
    ensures dates { RadiiStaySmall }
    ensures goes_back { RadiusGoesBack }
    ensures inside { RadiiStaySmallInside }
{}
