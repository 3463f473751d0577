//! What holds of all decimals. Each function says a law and returns at once.

ghost use Rattle.decimal_in.specs.Decimals.{SizesAreSmall};
ghost use Rattle.decimal_in.specs.Places.{DecimalsHaveMillionths};

/// A decimal without a sign is below 10^24 millionths, since it has at most 18 digits before the point.
pub fn sizes_are_small()
    ensures { SizesAreSmall }
{}

/// A text has a decimal exactly where it has millionths, and both are one number.
pub fn decimals_have_millionths()
    ensures { DecimalsHaveMillionths }
{}
