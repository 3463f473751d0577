//! The bound ledger. Each function says laws and returns at once.

ghost use Rattle.ledger_laws.specs.BoundLaws.{BoundGoesBack, BoundHasAllParts, BoundIsGreatest};
ghost use Rattle.ledger_laws.specs.BoundLaws.{BoundNeverFalls, ScaleBoundsLedger, ScaleBoundsParts};

/// The bound ledger of any plan never falls on its way to issue, and no value of it is above the last one: where one
/// exceeds a limit, so does the bound.
pub fn bound_never_falls()
    ensures goes_back { BoundGoesBack }
    ensures months { BoundNeverFalls }
    ensures greatest { BoundIsGreatest }
{}

/// What a month's 32 cells add, each lump and the greatest transition sum are at most the bound.
pub fn bound_has_all_parts()
    ensures { BoundHasAllParts }
{}

/// With `G` = 2^scale minor units the ledger stays within 1024 `G`, pay within 32 `G`, lumps and sums within `G`.
pub fn scale_bounds_all()
    ensures ledger { ScaleBoundsLedger }
    ensures parts { ScaleBoundsParts }
{}
