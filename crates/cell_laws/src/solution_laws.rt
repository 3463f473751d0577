//! Sequences that obey a recurrence with any right sides. Each function says laws and returns at once.

ghost use Rattle.cell_laws.specs.Solutions.{SolutionsAreDriven, DefectsRespond};
ghost use Rattle.cell_laws.specs.Solutions.{TameRightSidesAreSmall, HomogeneousRightSidesAreSmall};
ghost use Rattle.cell_laws.specs.Solutions.{SecondRightSidesAreSmall};

/// The norms of a sequence that obeys a recurrence are driven by the norms of its matrices and right sides.
pub fn solutions_are_driven()
    ensures { SolutionsAreDriven }
{}

/// A sequence that small factors drive adds up to at most 64/63 of its start and all right sides.
pub fn defects_respond()
    ensures { DefectsRespond }
{}

/// The right sides of tame systems and pairs, weighted by `8^k`.
pub fn tame_right_sides_are_small()
    ensures single { TameRightSidesAreSmall }
    ensures homogeneous { HomogeneousRightSidesAreSmall }
    ensures second { SecondRightSidesAreSmall }
{}
