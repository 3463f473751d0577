// A sheet as CSV.
ghost use Rattle.std.specs.Prelude.{◌≡◌, [], ◌∷◌, ◌++◌, ℕ, List, IfOk, OnOk, map};
ghost use Rattle.csv.specs.Reading.{default_config, strip_bom, AreRecords};
ghost use Rattle.csv.specs.Records.{fields_of, partial_of};
ghost use Rattle.csv.specs.Writing.{default_writer, row_text};
ghost use Rattle.csv.specs.declared.parser.State.TheVariants as st;
ghost use Rattle.row_sheets.specs.CsvText.{cell_text, csv_text, records_of, records_text, row_fields, HasWritten};
ghost use Rattle.row_sheets.specs.Sheets.{cell_of, cells_of, names_of, rows_of};

use crate::field::Field;
use crate::sheet::Sheet;
use csv::{ByteRecord, Writer};
use itoa::Buffer;
use std::alloc::{AllocError, Global};

// Adds a field to a record.
fn push_field(record: &mut ByteRecord, field: &Field) -> Result<(), AllocError>
    requires { partial_of record.old ≡ [] }
    ensures fields { OnOk result (fields_of record.new ≡ fields_of record.old ++ cell_text (cell_of field.now) ∷ []) }
    ensures partial { OnOk result (partial_of record.new ≡ []) }
{
    match field {
        Field::Whole(number) => record.push_field(Buffer::new().format(*number).as_bytes()),
        Field::Text(text) => record.push_field(text.as_bytes()),
    }
}

// The record of a row.
fn row_record(alloc: Global, row: &[Field]) -> Result<ByteRecord, AllocError>
    ensures { IfOk result (λ made. fields_of made ≡ row_fields (cells_of row.now)) }
{
    let mut record = ByteRecord::new(alloc);
    for i in 0..row.len() {
        push_field(&mut record, &row[i])?;
    }
    Ok(record)
}

// The record of the names of columns.
fn head_record(alloc: Global, head: &[&str]) -> Result<ByteRecord, AllocError>
    ensures { IfOk result (λ made. fields_of made ≡ names_of head.now) }
{
    let mut record = ByteRecord::new(alloc);
    for i in 0..head.len() {
        record.push_field(head[i].as_bytes())?;
    }
    Ok(record)
}

// Writes a record. All records of a sheet are equally long, so that nothing is refused but memory.
fn write(writer: &mut Writer<Vec<u8>>, record: &ByteRecord) -> Result<(), AllocError>
    requires { (so_far : List ℕ) × HasWritten writer.old so_far }
    ensures { OnOk result ((so_far : List ℕ) → HasWritten writer.old so_far
        → HasWritten writer.new (so_far ++ row_text default_writer (fields_of record.now))) }
{
    match writer.write_byte_record(record) {
        Ok(()) => Ok(()),
        Err(_) => Err(AllocError),
    }
}

// Writes the rows.
fn write_rows(
    alloc: Global,
    writer: &mut Writer<Vec<u8>>,
    rows: &[Vec<Field>],
) -> Result<(), AllocError>
    requires { (so_far : List ℕ) × HasWritten writer.old so_far }
    ensures { OnOk result ((so_far : List ℕ) → HasWritten writer.old so_far
        → HasWritten writer.new (so_far ++ records_text (map row_fields (rows_of rows.now)))) }
{
    for i in 0..rows.len() {
        write(writer, &row_record(alloc, &rows[i])?)?;
    }
    Ok(())
}

/// The head and the rows of a sheet as CSV, each record with a line feed at its end. A reader of CSV reads from the
/// text exactly the head and the rows, a whole number in decimal. It fails only for want of memory.
pub fn csv_bytes(alloc: Global, sheet: &Sheet) -> Result<Vec<u8>, AllocError>
    ensures text { IfOk result (λ bytes. bytes.items ≡ csv_text sheet.now) }
    ensures reads { IfOk result
        (λ bytes. AreRecords default_config st.StartRecord (strip_bom bytes.items) (records_of sheet.now)) }
{
    let mut writer = Writer::from_writer(Vec::new(alloc));
    write(&mut writer, &head_record(alloc, sheet.head())?)?;
    write_rows(alloc, &mut writer, sheet.rows())?;
    match writer.into_inner() {
        Ok(bytes) => Ok(bytes),
        Err(_) => Err(AllocError),
    }
}
