//! The rows of tables.
ghost use Rattle.std.specs.Prelude.{◌≡◌, ◌*◌, ◌<◌, IfOk, length};
ghost use Rattle.whole_laws.specs.Whole.{list_of};
ghost use Rattle.reserve_report.specs.TableRows.{HasTable, HaveTables, moment_row_at};
ghost use Rattle.reserve_report.specs.TableRows as rows;

use fixed_interval::{MomentTable, Table};
use report_columns::{Note, What};
use std::alloc::{AllocError, Global};

// The row at a place of a table: of a date and a state.
fn row_at(what: What, t: &Table, place: usize) -> Note
    requires table { HasTable t.now }
    requires place { place < length t.now.cells.items }
    ensures { result ≡ rows.row_at what t.now place }
{
    let ends = t.cells[place];
    Note {
        month: (place / t.states) as u32 * t.every,
        state: (place % t.states) as u32,
        what,
        lo: ends.lo,
        hi: ends.hi,
    }
}

/// The rows of a table: by date, and then by state.
pub(crate) fn rows_of(alloc: Global, what: What, t: &Table) -> Result<Vec<Note>, AllocError>
    requires { HasTable t.now }
    ensures { IfOk result (λ found. found.items ≡ list_of (length t.now.cells.items) (rows.row_at what t.now)) }
{
    let mut rows = Vec::new(alloc);
    for place in 0..t.cells.len() {
        rows.push(row_at(what, t, place))?;
    }
    Ok(rows)
}

/// The rows of moments: by date, then by state, and of each the first moment, the second moment and the variance.
pub(crate) fn moment_rows(alloc: Global, t: &MomentTable) -> Result<Vec<Note>, AllocError>
    requires { HaveTables t.now }
    ensures { IfOk result (λ found. found.items ≡ list_of (3 * length t.now.first.cells.items) (moment_row_at t.now)) }
{
    let mut rows = Vec::new(alloc);
    for place in 0..t.first.cells.len() {
        rows.push(row_at(What::First, &t.first, place))?;
        rows.push(row_at(What::Second, &t.second, place))?;
        rows.push(row_at(What::Variance, &t.variance, place))?;
    }
    Ok(rows)
}
