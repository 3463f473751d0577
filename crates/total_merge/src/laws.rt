//! What holds of all tables of totals. Each function says a law and returns at once.

ghost use Rattle.total_merge.specs.Laws.{OrderMattersNot, SumsAreHeld, SumsAreNarrow, TotalsAreHeld};
ghost use Rattle.total_merge.specs.Tables.{TablesHaveOneReading};

/// A CSV text has one list of entries or one first wrong row, with one first wrong part. So tables are merged exactly
/// where no row is wrong, but for want of memory.
pub fn tables_have_one_reading()
    ensures { TablesHaveOneReading }
{}

/// Where the interval of each entry holds a number, the interval of a group holds the sum of its entries' numbers.
pub fn sums_are_held()
    ensures { SumsAreHeld }
{}

/// Where the ends of each entry are no further apart than its tolerance, the ends of a group are no further apart than
/// the sum of its entries' tolerances.
pub fn sums_are_narrow()
    ensures { SumsAreNarrow }
{}

/// Entries in another order have the same sums.
pub fn order_matters_not()
    ensures { OrderMattersNot }
{}

/// From the highest degree of a table on, each total of a valued portfolio holds the exact value of its group. So
/// merged totals of portfolios hold the sums of these, from the degree on that they tell.
pub fn totals_are_held()
    ensures { TotalsAreHeld }
{}
