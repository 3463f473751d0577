//! What holds of joint records. Each function says a law and returns at once.

ghost use Rattle.joint_life.specs.Laws.{JointRecordsAreWellFormed, MarginalsAreSingleLives};

/// The joint record of two lives that can be joined obeys rules 3 to 14.
pub fn joint_records_are_well_formed()
    ensures { JointRecordsAreWellFormed }
{}

/// The probabilities of the joint record, added over the states of one life, are exactly those of the other, in every
/// degree and at every date up to the first life's term.
pub fn marginals_are_single_lives()
    ensures { MarginalsAreSingleLives }
{}
