//! Two small products that are charged, beside exact fractions that were computed outside. Each function says what they
//! are and returns at once.

ghost use Rattle.charge_laws.specs.ChargeInstances.{ChargedLumpsAre, FileReservesAre};
ghost use Rattle.charge_laws.specs.ChargeInstances.{PatternReservesAre, ChargedReservesAre};
ghost use Rattle.charge_laws.specs.ChargeInstances.{ChargedStepsAre, ContinuousFileReservesAre};
ghost use Rattle.charge_laws.specs.ChargeInstances.{ContinuousPatternReservesAre, ContinuousChargedReservesAre};

/// Of premiums at dates: the charged lumps, one of them added where none was, and the reserves at issue of the product,
/// of its pattern and of the charged product.
pub fn small_product_is_charged()
    ensures lumps { ChargedLumpsAre }
    ensures file { FileReservesAre }
    ensures pattern { PatternReservesAre }
    ensures charged { ChargedReservesAre }
{}

/// Of a continuous premium: the charged steps, one of them added where the premium ends, and the same reserves.
pub fn continuous_product_is_charged()
    ensures steps { ChargedStepsAre }
    ensures file { ContinuousFileReservesAre }
    ensures pattern { ContinuousPatternReservesAre }
    ensures charged { ContinuousChargedReservesAre }
{}
