//! The printed reserves of a table, each with the tolerance of its date.

ghost use Rattle.std.specs.Prelude.{◌≡◌, ◌<◌, IfOk, All, length};
ghost use Rattle.whole_laws.specs.Whole.{list_of};
ghost use Rattle.thiele_backward.specs.Results.{AreReserves};
ghost use Rattle.basis_compare.specs.Differences as rows;

use crate::differences::PrintedReserve;
use fixed_interval::Table;
use ledger_bounds::tolerance_first;
use payment_plan::Which;
use rate_bounds::Admitted;
use std::alloc::{AllocError, Global};

// The reserve at a place of a table: of a date and a state.
fn printed_at(adm: &Admitted, t: &Table, place: usize) -> PrintedReserve
    requires every { 0 < t.now.every }
    requires table { AreReserves adm.now t.now.every t.now }
    requires place { place < length t.now.cells.items }
    ensures value { result ≡ rows.printed_at adm.now t.now place }
    ensures small { rows.IsSmall result }
{
    // Of an admitted product the months and the states are few.
    let _product = adm.product();
    let ends = t.cells[place];
    let month = (place / t.states) as u32 * t.every;
    PrintedReserve {
        month,
        state: (place % t.states) as u32,
        lo: ends.lo,
        hi: ends.hi,
        tol: tolerance_first(adm.radius(month), adm.scale(Which::Benefits)),
    }
}

/// The reserves of a table by date, and then by state.
pub(crate) fn printed_reserves(
    alloc: Global,
    adm: &Admitted,
    t: &Table,
) -> Result<Vec<PrintedReserve>, AllocError>
    requires every { 0 < t.now.every }
    requires table { AreReserves adm.now t.now.every t.now }
    ensures values { IfOk result (λ reserves. reserves.items
        ≡ list_of (length t.now.cells.items) (rows.printed_at adm.now t.now)) }
    ensures small { IfOk result (λ reserves. All rows.IsSmall reserves.items) }
{
    let mut reserves = Vec::new(alloc);
    for place in 0..t.cells.len() {
        reserves.push(printed_at(adm, t, place))?;
    }
    Ok(reserves)
}
