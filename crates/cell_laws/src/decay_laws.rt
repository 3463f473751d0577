//! The decay of coefficients. Each function says one law and returns at once.

ghost use Rattle.cell_laws.specs.DecayLaws.{CoefficientsDecay, StoredCoefficientsDecay};
ghost use Rattle.cell_laws.specs.DecayLaws.{FirstHalvesDecay, SecondHalvesDecay};
ghost use Rattle.cell_laws.specs.DecayLaws.{StoredFirstHalvesDecay, StoredSecondHalvesDecay};
ghost use Rattle.cell_laws.specs.DecayLaws.{TailsAreBelowAUnit, StoredTailsAreBelowAUnit};
ghost use Rattle.cell_laws.specs.DecayLaws.{SecondTailsAreBelowAUnit, StoredSecondTailsAreBelowAUnit};

/// Of a tame system `8^k |y_k|` stays at most 2 from a start of norm at most 2, and at most 17/8 from one of
/// at most 17/8, as a stored start is.
pub fn coefficients_decay()
    ensures start { CoefficientsDecay }
    ensures stored_start { StoredCoefficientsDecay }
{}

/// Of a tame pair from starts of norm at most 1 `8^k |w_k|` stays at most 3/2 and `8^k |z_k|` at most 2; from
/// starts of at most 17/16, as stored ones are, 49/32 and 17/8.
pub fn pair_coefficients_decay()
    ensures first { FirstHalvesDecay }
    ensures second { SecondHalvesDecay }
    ensures stored_first { StoredFirstHalvesDecay }
    ensures stored_second { StoredSecondHalvesDecay }
{}

/// What follows power 24 adds up to less than a unit of 2^-64.
pub fn tails_are_below_a_unit()
    ensures start { TailsAreBelowAUnit }
    ensures stored_start { StoredTailsAreBelowAUnit }
    ensures second { SecondTailsAreBelowAUnit }
    ensures stored_second { StoredSecondTailsAreBelowAUnit }
{}
