//! Polynomials that are shifted. Each function says laws and returns at once.

ghost use Rattle.shift_laws.specs.Shifts.{DerivativesShift, FirstIsAValue, ProductsShift, SizesShift, SumsAreValues};

/// The shift of a product is the product of the shifts, and the derivative of a shift the shift of the derivative.
pub fn shifts_keep_products()
    ensures products { ProductsShift }
    ensures derivatives { DerivativesShift }
{}

/// The sizes of a shifted polynomial at a place are at most those of the polynomial that much further on.
pub fn shifts_keep_sizes()
    ensures { SizesShift }
{}

/// The first coefficient of a shift is a value of the polynomial, and all of them add up to the value one further on.
pub fn shifts_take_values()
    ensures first { FirstIsAValue }
    ensures sums { SumsAreValues }
{}
