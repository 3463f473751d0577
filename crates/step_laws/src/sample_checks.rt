//! A small step that meets the premises of the laws. Each function says what it is and returns at once.

ghost use Rattle.step_laws.specs.Samples.{SampleStandsFor, SampleIsTame};
ghost use Rattle.step_laws.specs.Samples.{SampleIsRounded, SampleStartIsNear, SampleStaysNear};
ghost use Rattle.step_laws.specs.Samples.{SampleMayStop, SampleMayNotStopAtNine, SampleIsRoundedEarly};
ghost use Rattle.step_laws.specs.Samples.{SampleStaysNearEarly};

/// A stored system with links and payments stands for an exact one that is tame; its 24 coefficients and
/// their sum are a rounded step from a start that is no multiple of a unit. So the sum is near each Taylor
/// value.
pub fn sample_step_meets_the_premises()
    ensures stands { SampleStandsFor }
    ensures tame { SampleIsTame }
    ensures rounded { SampleIsRounded }
    ensures near { SampleStartIsNear }
    ensures stays_near { SampleStaysNear }
{}

/// The same run may stop at degree 10 and not at 9, and the sum of its first 11 coefficients is near each later
/// Taylor value.
pub fn sample_step_may_stop_early()
    ensures stops { SampleMayStop }
    ensures not_before { SampleMayNotStopAtNine }
    ensures rounded { SampleIsRoundedEarly }
    ensures stays_near { SampleStaysNearEarly }
{}
