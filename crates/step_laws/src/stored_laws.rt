//! The promise of a step for numbers by power, row and column. Each function says laws and returns at once.

ghost use Rattle.step_laws.specs.StoredSteps.{StoredStepsStayWithinTheirRadius};
ghost use Rattle.step_laws.specs.StoredSteps.{StoredFirstHalvesStayWithinTheirRadius};
ghost use Rattle.step_laws.specs.StoredSteps.{StoredSecondHalvesStayWithinTheirRadius};

/// What `steps_stay_within_their_radius` says, of stored numbers that are read by power, row and column.
pub fn stored_steps_stay_within_their_radius()
    ensures { StoredStepsStayWithinTheirRadius }
{}

/// What `pair_steps_stay_within_their_radius` says, where one run has the rows of both halves.
pub fn stored_pair_steps_stay_within_their_radius()
    ensures first { StoredFirstHalvesStayWithinTheirRadius }
    ensures second { StoredSecondHalvesStayWithinTheirRadius }
{}
