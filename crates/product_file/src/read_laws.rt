//! What holds of every file that reads as a product. Each function says a law and returns at once.

ghost use Rattle.product_file.specs.ReadLaws.{ReadProductsAreWellFormed};

/// A product that a file's tree reads as obeys rules 3 to 14 as they are said of the record.
pub fn read_products_are_well_formed()
    ensures { ReadProductsAreWellFormed }
{}
