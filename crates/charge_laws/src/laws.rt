//! The payments and the values of charged products. Each function says laws and returns at once.

ghost use Rattle.charge_laws.specs.ChargeLaws.{ChargesComeOffLumps, ChargesComeOffSojourns, ChargesComeOffReserves};
ghost use Rattle.charge_laws.specs.ChargeLaws.{ChargesComeOffValues, ChargedPremiumsBalance};

/// The lump of the charged product at each date and in each state is the product's, less the amount times the
/// pattern's. A premium that is paid continuously has no lumps.
pub fn charges_come_off_lumps()
    ensures { ChargesComeOffLumps }
{}

/// So it is with what is paid a year in each cell of the term and in each state: a pattern of dates pays nothing there.
pub fn charges_come_off_sojourns()
    ensures { ChargesComeOffSojourns }
{}

/// And so, exactly and in every degree, with the reserve at each date and in each state, by cells and by whole months,
/// and with the value at issue. A charge that is worth the benefits leaves a value of 0.
pub fn charges_come_off()
    ensures reserves { ChargesComeOffReserves }
    ensures values { ChargesComeOffValues }
    ensures balance { ChargedPremiumsBalance }
{}
