// The text of a report.
ghost use Rattle.std.specs.Prelude.{◌≡◌, ◌++◌, ◌<◌, All, length, pos, OnOk, OnErr, IfOk};
ghost use Rattle.report_columns.specs.Columns.{all_told, columns_of, AreToldFirst};
ghost use Rattle.report_columns.specs.Lines.{in_format};
ghost use Rattle.reserve_report.specs.Reports.{HasText};
ghost use Rattle.reserve_report.specs.ReportText.{kind_word, row_subject, row_interval, row_line};
ghost use Rattle.reserve_report.specs.ReportText.{row_lines, head_lines, rows_text, report_text};

use crate::report::{Kind, Report};
use decimal_out::{push_size, push_whole};
use product_model::Product;
use report_columns::{Column, Note, What, push_columns, push_number, tell_rows};
use std::alloc::{AllocError, Global};

impl Kind {
    fn word(self) -> &'static [u8]
        ensures { result.now ≡ kind_word self }
    {
        match self {
            Kind::Value => b"value",
            Kind::Reserves => b"reserves",
            Kind::Occupancy => b"occupancy",
            Kind::Moments => b"moments",
            Kind::Premium => b"premium",
        }
    }
}

/// Appends what a row is about.
fn push_subject(out: &mut Vec<u8>, product: &Product, row: &Note) -> Result<(), AllocError>
    requires { row.now.state < length product.now.states }
    ensures { OnOk result (out.new.items ≡ out.old.items ++ row_subject product.now row.now) }
{
    push_whole(out, row.month)?;
    out.push(b' ')?;
    out.extend_from_slice(product.graph().name(row.state as usize))?;
    out.push(b' ')?;
    out.extend_from_slice(row.what.word())?;
    out.push(b' ')?;
    Ok(())
}

/// Appends a tolerance in the format of a row.
fn push_tolerance(out: &mut Vec<u8>, what: What, tolerance: u128) -> Result<(), AllocError>
    ensures { OnOk result (out.new.items ≡ out.old.items ++ in_format what (pos tolerance)) }
{
    match what {
        What::Second | What::Variance => push_whole(out, tolerance),
        _ => push_size(out, tolerance),
    }
}

/// Appends the ends and the tolerance of a row.
fn push_interval(out: &mut Vec<u8>, row: &Note, tolerance: u128) -> Result<(), AllocError>
    ensures { OnOk result (out.new.items ≡ out.old.items ++ row_interval row.now tolerance) }
{
    push_number(out, row.what, row.lo)?;
    out.push(b' ')?;
    push_number(out, row.what, row.hi)?;
    out.push(b' ')?;
    push_tolerance(out, row.what, tolerance)?;
    out.push(b'\n')?;
    Ok(())
}

/// Appends the line of a row.
fn push_row(
    out: &mut Vec<u8>,
    product: &Product,
    row: &Note,
    tolerance: u128,
) -> Result<(), AllocError>
    requires { row.now.state < length product.now.states }
    ensures { OnOk result (out.new.items ≡ out.old.items ++ row_line product.now row.now tolerance) }
{
    push_subject(out, product, row)?;
    push_interval(out, row, tolerance)
}

/// Appends the first two lines.
fn push_head(out: &mut Vec<u8>, product: &Product, report: &Report) -> Result<(), AllocError>
    ensures { OnOk result (out.new.items ≡ out.old.items ++ head_lines product.now report.now) }
{
    out.extend_from_slice(b"report ")?;
    out.extend_from_slice(report.kind.word())?;
    out.push(b' ')?;
    out.extend_from_slice(product.name())?;
    out.extend_from_slice(b"\ndegree ")?;
    push_whole(out, report.degree)?;
    out.extend_from_slice(b" scale ")?;
    push_whole(out, report.scale)?;
    out.push(b'\n')?;
    Ok(())
}

/// Appends the lines of the rows, each with its tolerance.
fn push_rows(
    out: &mut Vec<u8>,
    product: &Product,
    rows: &[Note],
    tolerances: &[u128],
) -> Result<(), AllocError>
    requires same { length rows.now ≡ length tolerances.now }
    requires states { All (λ row. row.state < length product.now.states) rows.now }
    ensures { OnOk result (out.new.items ≡ out.old.items ++ row_lines product.now rows.now tolerances.now) }
{
    for i in 0..rows.len() {
        push_row(out, product, &rows[i], tolerances[i])?;
    }
    Ok(())
}

// The text up to the columns.
fn rows_bytes(alloc: Global, product: &Product, report: &Report) -> Result<Vec<u8>, AllocError>
    requires { HasText product.now report.now }
    ensures { IfOk result (λ bytes. bytes.items ≡ rows_text product.now report.now) }
{
    let mut bytes = Vec::new(alloc);
    push_head(&mut bytes, product, report)?;
    push_rows(&mut bytes, product, &report.rows, &report.tolerance)?;
    bytes.extend_from_slice(b"end ")?;
    push_whole(&mut bytes, report.rows.len())?;
    bytes.push(b'\n')?;
    Ok(bytes)
}

/// The text of a report about a product. Each column is told of each row, the rows in order and for each row the
/// columns in order, and then the columns stand below the rows. Where memory is refused, a column keeps the lines of
/// the rows that it was told of.
pub fn report_bytes(
    alloc: Global,
    product: &Product,
    report: &Report,
    columns: &mut Vec<Box<dyn Column>>,
) -> Result<Vec<u8>, AllocError>
    requires { HasText product.now report.now }
    ensures text { IfOk result
        (λ bytes. bytes.items ≡ report_text product.now report.now (columns_of kind text columns.old.items)) }
    ensures told { OnOk result
        (columns_of kind text columns.new.items
        ≡ all_told report.now.rows.items (columns_of kind text columns.old.items)) }
    ensures err { OnErr result
        (AreToldFirst report.now.rows.items
        (columns_of kind text columns.old.items) (columns_of kind text columns.new.items)) }
{
    tell_rows(columns, &report.rows)?;
    let mut bytes = rows_bytes(alloc, product, report)?;
    push_columns(&mut bytes, columns)?;
    Ok(bytes)
}
