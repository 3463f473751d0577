// The sheet of the totals of a portfolio.
ghost use Rattle.std.specs.Prelude.{◌≡◌, IfOk};
ghost use Rattle.row_sheets.specs.Sheets.{cells_of};
ghost use Rattle.answer_sheets.specs.TotalsSheet.{total_row, totals_sheet_of};

use crate::fields::{amount_field, size_field};
use portfolio_run::{Total, Totals};
use row_sheets::{Field, Sheet};
use std::alloc::{AllocError, Global};

const HEAD: &[&str] = &["group", "lo", "hi", "tolerance"];

// A total as fields.
fn row_fields(alloc: Global, total: &Total) -> Result<Vec<Field>, AllocError>
    ensures { IfOk result (λ fields. cells_of fields.items ≡ total_row total.now) }
{
    let mut fields = Vec::new(alloc);
    fields.push(Field::Text(String::from_utf8_lossy(alloc, &total.name)?))?;
    fields.push(amount_field(alloc, total.lo)?)?;
    fields.push(amount_field(alloc, total.hi)?)?;
    fields.push(size_field(alloc, total.tol)?)?;
    Ok(fields)
}

/// The sheet of the totals of a portfolio: a row for each group, in their order. What is no UTF-8 in the name of a
/// group shows as U+FFFD. It fails only for want of memory.
pub fn totals_sheet(alloc: Global, totals: &Totals) -> Result<Sheet, AllocError>
    ensures { IfOk result (λ sheet. sheet ≡ totals_sheet_of totals.now) }
{
    let mut sheet = Sheet::new(alloc, HEAD);
    for i in 0..totals.groups.len() {
        sheet.push(row_fields(alloc, &totals.groups[i])?)?;
    }
    Ok(sheet)
}
