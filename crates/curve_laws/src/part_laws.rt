//! Each function says one law and returns at once.

ghost use Rattle.curve_laws.specs.PartLaws.{PartsHaveSmallCoefficients, PartsKeepMeans, PartsKeepSigns};

/// The coefficients of a polynomial over a part of [0, 1], power by power, from bounds on its Bernstein coefficients.
pub fn parts_have_small_coefficients()
    ensures { PartsHaveSmallCoefficients }
{}

/// The mean over a part of [0, 1] lies between bounds of the Bernstein coefficients, and is not negative where they are
/// not.
pub fn parts_keep_means()
    ensures between { PartsKeepMeans }
    ensures signs { PartsKeepSigns }
{}
