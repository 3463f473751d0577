// Tables of totals in one CSV text, merged.
ghost use Rattle.std.specs.Prelude.{◌≤◌, length, IfErr, IfOk};
ghost use Rattle.portfolio_run.specs.Stored.{most_bytes};
ghost use Rattle.portfolio_run.specs.TotalsText.{HaveText};
ghost use Rattle.total_merge.specs.Merged.{AreMergedIn};
ghost use Rattle.total_merge.specs.Tables.{TellsWrongIn};

use crate::reading::{MergeError, read_entries};
use crate::summing::sum_up;
use portfolio_run::Totals;
use std::alloc::Global;

// The highest degree of a table of reserves. A table of totals does not tell its degree, so the totals that are merged
// are said to hold from this one on.
const HIGHEST_DEGREE: u8 = 24;

/// Merges tables of totals by group that stand one after the other in a CSV text, each below a record `group,lo,hi,
/// tolerance`: the totals by group over all of them, or the first wrong row. `policies` counts the records that are
/// added up.
pub fn merge(alloc: Global, text: &[u8]) -> Result<Totals, MergeError>
    requires most { length text.now ≤ most_bytes }
    ensures ok { IfOk result (AreMergedIn text.now) }
    ensures text { IfOk result HaveText }
    ensures err { IfErr result (TellsWrongIn text.now) }
{
    let entries = match read_entries(alloc, text) {
        Ok(entries) => entries,
        Err(why) => return Err(why),
    };
    let Ok(groups) = sum_up(alloc, &entries) else {
        return Err(MergeError::Memory);
    };
    Ok(Totals {
        degree: HIGHEST_DEGREE,
        policies: entries.len() as u64,
        groups,
    })
}
