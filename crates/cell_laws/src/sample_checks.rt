//! Small systems that meet the premises of the laws. Each function says what they are and returns at once.

ghost use Rattle.cell_laws.specs.Samples.{BackwardSystemIsTame, ForwardSystemIsTame};
ghost use Rattle.cell_laws.specs.Samples.{SamplePairIsTame};
ghost use Rattle.cell_laws.specs.Samples.{BackwardGrowthIsLeast, ForwardGrowthIsLeast};
ghost use Rattle.cell_laws.specs.Samples.{SecondGrowthIsLeast};
ghost use Rattle.cell_laws.specs.Samples.{HalvingValueIsExact, BackwardValueIsExact};
ghost use Rattle.cell_laws.specs.Samples.{ForwardValueIsExact, SecondValueIsExact};

/// A system with links and payments is tame in the norm Sup, one with links in the norm Sum, and so is a pair
/// with a coupling.
pub fn samples_are_tame()
    ensures backward { BackwardSystemIsTame }
    ensures forward { ForwardSystemIsTame }
    ensures pair { SamplePairIsTame }
{}

/// The growth of each sample is the least that it has.
pub fn sample_growths_are_least()
    ensures backward { BackwardGrowthIsLeast }
    ensures forward { ForwardGrowthIsLeast }
    ensures second { SecondGrowthIsLeast }
{}

/// Taylor values of the samples, beside numbers that another program computed.
pub fn sample_values_are_exact()
    ensures halving { HalvingValueIsExact }
    ensures backward { BackwardValueIsExact }
    ensures forward { ForwardValueIsExact }
    ensures second { SecondValueIsExact }
{}
