//! The numbers of a month. Each function says one law and returns at once.

ghost use Rattle.ledger_laws.specs.MonthLaws.{AdmissibleProductsObey, MonthNumbersAreSmall};

/// An admissible product obeys rules 15 to 17 in each month of the term.
pub fn admissible_products_obey()
    ensures { AdmissibleProductsObey }
{}

/// The rates, the interest and the growth of a month in which rules 15 to 17 hold.
pub fn month_numbers_are_small()
    ensures { MonthNumbersAreSmall }
{}
