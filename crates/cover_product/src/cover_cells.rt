//! A product with all that a product may have, beside numbers that were computed outside. Each function says what they
//! are and returns at once.

ghost use Rattle.cover_product.specs.Cover.{CoverIsAdmissible};
ghost use Rattle.cover_product.specs.Cover.{CoverLedgers, CoverMonths, ThieleNorms, SecondNorms};
ghost use Rattle.cover_product.specs.Cover.{CouplingNorms, KolmogorovNorms};

/// It meets rules 3 to 18, so the premises of the laws of every admissible product can be met.
pub fn cover_is_admissible()
    ensures { CoverIsAdmissible }
{}

/// The ledgers that the scale of its cells comes from.
pub fn cover_has_ledgers()
    ensures ledgers { CoverLedgers }
    ensures months { CoverMonths }
{}

/// The sums of norms in one of its cells.
pub fn cover_has_norms()
    ensures thiele { ThieleNorms }
    ensures second { SecondNorms }
    ensures coupling { CouplingNorms }
    ensures kolmogorov { KolmogorovNorms }
{}
