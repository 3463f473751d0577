//! How far the ends of rows may lie apart.
ghost use Rattle.std.specs.Prelude.{◌≡◌, All, IfOk, map};
ghost use Rattle.model_specs.specs.Rows.{tolerance};
ghost use Rattle.report_columns.specs.Notes.{HasEnds};
ghost use Rattle.reserve_report.specs.Reports.{row_of};
ghost use Rattle.reserve_report.specs.TableRows.{IsInTerm};

use ledger_bounds::{tolerance_first, tolerance_second, tolerance_variance};
use payment_plan::Which;
use rate_bounds::Admitted;
use report_columns::{Note, What};
use std::alloc::{AllocError, Global};

// How far the ends of a row may lie apart, in the unit of the row. A premium has no tolerance but its own width.
fn tolerance_of(adm: &Admitted, row: &Note) -> u128
    requires term { IsInTerm adm.now row.now }
    requires ends { HasEnds row.now }
    ensures { result ≡ tolerance adm.now (row_of row.now) }
{
    let scale = adm.scale(Which::Benefits);
    match row.what {
        What::Value | What::Benefits => tolerance_first(adm.radius(0), scale),
        What::Reserve | What::First | What::Total => tolerance_first(adm.radius(row.month), scale),
        What::Occupancy => tolerance_first(adm.radius_forward(row.month), 0),
        What::Second => tolerance_second(adm.radius_second(row.month), scale),
        What::Variance => {
            tolerance_variance(adm.radius_second(row.month), adm.radius(row.month), scale)
        }
        What::Pattern => tolerance_first(adm.radius(0), adm.scale(Which::Pattern)),
        What::Premium => (row.hi - row.lo) as u128,
    }
}

// The tolerances of rows, in their order.
pub(crate) fn tolerances_of(
    alloc: Global,
    adm: &Admitted,
    rows: &[Note],
) -> Result<Vec<u128>, AllocError>
    requires term { All (IsInTerm adm.now) rows.now }
    requires ends { All HasEnds rows.now }
    ensures { IfOk result (λ tolerances. tolerances.items ≡ map (λ row. tolerance adm.now (row_of row)) rows.now) }
{
    let mut tolerances = Vec::new(alloc);
    for row in rows {
        tolerances.push(tolerance_of(adm, row))?;
    }
    Ok(tolerances)
}
