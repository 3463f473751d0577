// The fields of rows.
ghost use Rattle.std.specs.Prelude.{◌≡◌, ◌<◌, [], pos, decimal, length, slice_index_or, IfOk, IsAscii};
ghost use Rattle.decimal_out.specs.Millionths.{millionths, millionths_of_size};
ghost use Rattle.report_columns.specs.Lines.{in_format};
ghost use Rattle.row_sheets.specs.Sheets.{cell_of, text};

use decimal_out::{push_millionths, push_size, push_whole};
use product_model::Product;
use report_columns::{What, push_number};
use row_sheets::Field;
use std::alloc::{AllocError, Global};

/// A word.
pub(crate) fn word_field(alloc: Global, word: &str) -> Result<Field, AllocError>
    ensures { IfOk result (λ field. cell_of field ≡ text word.now) }
{
    Ok(Field::Text(String::from_str(alloc, word)?))
}

// A text of ASCII.
fn ascii_field(alloc: Global, bytes: &[u8]) -> Result<Field, AllocError>
    requires { IsAscii bytes.now }
    ensures { IfOk result (λ field. cell_of field ≡ text bytes.now) }
{
    Ok(Field::Text(String::from_utf8_lossy(alloc, bytes)?))
}

/// The name of a state.
pub(crate) fn state_field(alloc: Global, product: &Product, state: u32) -> Result<Field, AllocError>
    requires { state < length product.now.states }
    ensures { IfOk result (λ field. cell_of field ≡ text (slice_index_or product.now.states state [])) }
{
    ascii_field(alloc, product.graph().name(state as usize))
}

/// A number of millionths.
pub(crate) fn amount_field(alloc: Global, number: i128) -> Result<Field, AllocError>
    ensures { IfOk result (λ field. cell_of field ≡ text (millionths number)) }
{
    let mut bytes = Vec::new(alloc);
    push_millionths(&mut bytes, number)?;
    ascii_field(alloc, &bytes)
}

/// A number of millionths that is not negative.
pub(crate) fn size_field(alloc: Global, number: u128) -> Result<Field, AllocError>
    ensures { IfOk result (λ field. cell_of field ≡ text (millionths_of_size number)) }
{
    let mut bytes = Vec::new(alloc);
    push_size(&mut bytes, number)?;
    ascii_field(alloc, &bytes)
}

/// A number of a row in the format of the row.
pub(crate) fn number_field(alloc: Global, what: What, number: i128) -> Result<Field, AllocError>
    ensures { IfOk result (λ field. cell_of field ≡ text (in_format what number)) }
{
    let mut bytes = Vec::new(alloc);
    push_number(&mut bytes, what, number)?;
    ascii_field(alloc, &bytes)
}

// A whole number that is not negative.
fn whole_field(alloc: Global, number: u128) -> Result<Field, AllocError>
    ensures { IfOk result (λ field. cell_of field ≡ text (decimal number)) }
{
    let mut bytes = Vec::new(alloc);
    push_whole(&mut bytes, number)?;
    ascii_field(alloc, &bytes)
}

/// A tolerance in the format of its row.
pub(crate) fn tolerance_field(
    alloc: Global,
    what: What,
    tolerance: u128,
) -> Result<Field, AllocError>
    ensures { IfOk result (λ field. cell_of field ≡ text (in_format what (pos tolerance))) }
{
    match what {
        What::Second | What::Variance => whole_field(alloc, tolerance),
        _ => size_field(alloc, tolerance),
    }
}
