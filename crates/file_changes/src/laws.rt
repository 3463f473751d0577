//! What holds of charged products. Each function says a law and returns at once.

ghost use Rattle.file_changes.specs.Laws.{ChargedProductsAreWellFormed};

/// A charged product obeys rules 3 to 14 where all parts of the charge hold.
pub fn charged_products_are_well_formed()
    ensures { ChargedProductsAreWellFormed }
{}
