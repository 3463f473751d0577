// The sheet of a report.
ghost use Rattle.std.specs.Prelude.{◌≡◌, ◌<◌, length, IfOk};
ghost use Rattle.report_columns.specs.Lines.{word_of};
ghost use Rattle.reserve_report.specs.Reports.{HasText};
ghost use Rattle.row_sheets.specs.Sheets.{cells_of};
ghost use Rattle.answer_sheets.specs.ReportSheet.{report_row, report_sheet_of};

use crate::fields::{number_field, state_field, tolerance_field, word_field};
use product_model::Product;
use report_columns::{Note, What};
use reserve_report::Report;
use row_sheets::{Field, Sheet};
use std::alloc::{AllocError, Global};

const HEAD: &[&str] = &["month", "state", "what", "lo", "hi", "tolerance"];

// The word of what a row is about.
fn word(what: What) -> &'static str
    ensures { result.now ≡ word_of what }
{
    match what {
        What::Value => "value",
        What::Reserve => "reserve",
        What::Occupancy => "occupancy",
        What::First => "first",
        What::Second => "second",
        What::Variance => "variance",
        What::Benefits => "benefits",
        What::Pattern => "pattern",
        What::Premium => "premium",
        What::Total => "total",
    }
}

// A row and its tolerance as fields.
fn row_fields(
    alloc: Global,
    product: &Product,
    row: &Note,
    tolerance: u128,
) -> Result<Vec<Field>, AllocError>
    requires { row.now.state < length product.now.states }
    ensures { IfOk result (λ fields. cells_of fields.items ≡ report_row product.now row.now tolerance) }
{
    let mut fields = Vec::new(alloc);
    fields.push(Field::Whole(u64::from(row.month)))?;
    fields.push(state_field(alloc, product, row.state)?)?;
    fields.push(word_field(alloc, word(row.what))?)?;
    fields.push(number_field(alloc, row.what, row.lo)?)?;
    fields.push(number_field(alloc, row.what, row.hi)?)?;
    fields.push(tolerance_field(alloc, row.what, tolerance)?)?;
    Ok(fields)
}

/// The sheet of a report: a row for each row of the report, in its order, each number in the format of the report's
/// text. It fails only for want of memory.
pub fn report_sheet(alloc: Global, product: &Product, report: &Report) -> Result<Sheet, AllocError>
    requires { HasText product.now report.now }
    ensures { IfOk result (λ sheet. sheet ≡ report_sheet_of product.now report.now) }
{
    let mut sheet = Sheet::new(alloc, HEAD);
    for i in 0..report.rows.len() {
        sheet.push(row_fields(alloc, product, &report.rows[i], report.tolerance[i])?)?;
    }
    Ok(sheet)
}
