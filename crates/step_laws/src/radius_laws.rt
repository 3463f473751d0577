//! The promise of a step. Each function says laws and returns at once.

ghost use Rattle.step_laws.specs.StepLaws.{StepsStayWithinTheirRadius};
ghost use Rattle.step_laws.specs.StepLaws.{FirstHalvesStayWithinTheirRadius};
ghost use Rattle.step_laws.specs.StepLaws.{SecondHalvesStayWithinTheirRadius};

/// Coefficients of a stored system, each rounded down once, add up with their start to a vector within the grown
/// radius of each later Taylor value of the exact system, in both norms. They go up to degree 24, or to one from 8
/// on where they are small for as many powers back as numbers are stored.
pub fn steps_stay_within_their_radius()
    ensures { StepsStayWithinTheirRadius }
{}

/// The same for both halves of a pair in the norm Sup; the second half's radius also grows by a whole number
/// of at least `c` times the first half's.
pub fn pair_steps_stay_within_their_radius()
    ensures first { FirstHalvesStayWithinTheirRadius }
    ensures second { SecondHalvesStayWithinTheirRadius }
{}
