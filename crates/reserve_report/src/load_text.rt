// The text of `load`.
ghost use Rattle.std.specs.Prelude.{◌≡◌, All, IfOk};
ghost use Rattle.report_columns.specs.Notes.{HasEnds};
ghost use Rattle.reserve_report.specs.LoadText.{load_text, width_of, widest};
ghost use Rattle.reserve_report.specs.Reports.{HasText};

use crate::report::Report;
use decimal_out::{push_size, push_whole};
use product_model::Product;
use report_columns::Note;
use std::alloc::{AllocError, Global};

/// How far apart the ends of a row stand, in millionths.
fn width_of(row: &Note) -> u128
    requires { HasEnds row.now }
    ensures { result ≡ width_of row.now }
{
    (row.hi - row.lo).unsigned_abs()
}

/// How far apart those of the widest row stand.
fn widest(rows: &[Note]) -> u128
    requires { All HasEnds rows.now }
    ensures { result ≡ widest rows.now }
{
    let mut most = 0;
    for row in rows {
        most = width_of(row).max(most);
    }
    most
}

/// A report of reserves in three lines: the product's name, the degree and the scale, and how many rows there are with
/// the greatest distance of a row's ends.
pub fn load_bytes(alloc: Global, product: &Product, report: &Report) -> Result<Vec<u8>, AllocError>
    requires { HasText product.now report.now }
    ensures { IfOk result (λ bytes. bytes.items ≡ load_text product.now report.now) }
{
    let mut bytes = Vec::new(alloc);
    bytes.extend_from_slice(b"load ")?;
    bytes.extend_from_slice(product.name())?;
    bytes.extend_from_slice(b"\ndegree ")?;
    push_whole(&mut bytes, report.degree)?;
    bytes.extend_from_slice(b" scale ")?;
    push_whole(&mut bytes, report.scale)?;
    bytes.extend_from_slice(b"\nrows ")?;
    push_whole(&mut bytes, report.rows.len())?;
    bytes.extend_from_slice(b" widest ")?;
    push_size(&mut bytes, widest(&report.rows))?;
    bytes.push(b'\n')?;
    Ok(bytes)
}
