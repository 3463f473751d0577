//! Runs as steps. The function says laws and returns at once.

ghost use Rattle.sweep_laws.specs.ScaledSteps.{FirstMomentsStep, BothMomentsStep, ProbabilitiesStep};

/// Each cell of a scaled run is a Taylor step of a tame system or pair, from a start of norm at most one, and at most
/// two for probabilities.
pub fn runs_are_tame_steps()
    ensures first { FirstMomentsStep }
    ensures both { BothMomentsStep }
    ensures probabilities { ProbabilitiesStep }
{}
