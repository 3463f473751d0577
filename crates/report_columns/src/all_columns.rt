// The columns of a report, all together: they are told of the rows, and their texts stand one below the other.
ghost use Rattle.std.specs.Prelude.{◌≡◌, [], ◌∷◌, ◌++◌, All, OnOk, OnErr};
ghost use Rattle.report_columns.specs.Columns.{all_told, column_of, column_section, column_sections, columns_of};
ghost use Rattle.report_columns.specs.Columns.{AreToldFirst, AreToldOne};
ghost use Rattle.report_columns.specs.Lines.{column_line};
ghost use Rattle.report_columns.specs.Notes.{HasEnds};

use crate::column::Column;
use crate::note::Note;
use decimal_out::push_whole;
use std::alloc::AllocError;

// Tells a column of a row.
fn tell(column: &mut Box<dyn Column>, row: &Note) -> Result<(), AllocError>
    requires { HasEnds row.now }
    ensures ok { OnOk result (text column.new ≡ text column.old ++ column_line (kind column.old) row.now) }
    ensures err { OnErr result (text column.new ≡ text column.old) }
    ensures kind { kind column.new ≡ kind column.old }
{
    column.note(row)
}

// Tells each column of a row, in their order.
fn tell_all(columns: &mut Vec<Box<dyn Column>>, row: &Note) -> Result<(), AllocError>
    requires { HasEnds row.now }
    ensures ok { OnOk result
        (columns_of kind text columns.new.items ≡ all_told (row.now ∷ []) (columns_of kind text columns.old.items)) }
    ensures err { OnErr result
        (AreToldOne row.now
        (columns_of kind text columns.old.items) (columns_of kind text columns.new.items)) }
{
    for column in columns.iter_mut() {
        tell(column, row)?;
    }
    Ok(())
}

/// Tells each column of each row: the rows in order, and for each row the columns in order. Where memory is refused,
/// the columns keep the lines of the rows that they were told of.
pub fn tell_rows(columns: &mut Vec<Box<dyn Column>>, rows: &[Note]) -> Result<(), AllocError>
    requires { All HasEnds rows.now }
    ensures ok { OnOk result
        (columns_of kind text columns.new.items ≡ all_told rows.now (columns_of kind text columns.old.items)) }
    ensures err { OnErr result
        (AreToldFirst rows.now
        (columns_of kind text columns.old.items) (columns_of kind text columns.new.items)) }
{
    for row in rows {
        tell_all(columns, row)?;
    }
    Ok(())
}

// Appends the section of a column.
fn push_section(out: &mut Vec<u8>, kind: u8, text: &[u8]) -> Result<(), AllocError>
    ensures { OnOk result (out.new.items ≡ out.old.items ++ column_section (record { kind = kind; text = text.now })) }
{
    out.extend_from_slice(b"column ")?;
    push_whole(out, kind)?;
    out.push(b'\n')?;
    out.extend_from_slice(text)?;
    Ok(())
}

// Appends the section of a column, as it is.
fn push_column(out: &mut Vec<u8>, column: &Box<dyn Column>) -> Result<(), AllocError>
    ensures { OnOk result (out.new.items ≡ out.old.items ++ column_section (column_of kind text column.now)) }
{
    push_section(out, column.kind(), column.text())?;
    Ok(())
}

/// Appends the texts of all columns, each below a line `column K` with its kind.
pub fn push_columns(out: &mut Vec<u8>, columns: &[Box<dyn Column>]) -> Result<(), AllocError>
    ensures { OnOk result (out.new.items ≡ out.old.items ++ column_sections (columns_of kind text columns.now)) }
{
    for column in columns {
        push_column(out, column)?;
    }
    Ok(())
}
