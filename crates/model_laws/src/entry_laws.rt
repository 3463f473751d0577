//! What stands in the systems of a cell, and how long their lists are. Each function says laws and returns at
//! once.

ghost use Rattle.model_laws.specs.EntryLaws.{SystemsHaveEntries, SystemsKeepStates, RunsKeepStates};
ghost use Rattle.model_laws.specs.EntryLaws.{TransitionsAreFound};

/// The numbers of the three systems, by power, row and column.
pub fn systems_have_entries()
    ensures { SystemsHaveEntries }
{}

/// The lists of the systems, and the vectors of the runs, are no longer than there are states.
pub fn lists_keep_states()
    ensures systems { SystemsKeepStates }
    ensures runs { RunsKeepStates }
{}

/// Where no two transitions have the same pair of states, each is the transition between its states.
pub fn transitions_are_found()
    ensures { TransitionsAreFound }
{}
