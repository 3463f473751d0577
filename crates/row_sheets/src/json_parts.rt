// The parts of the tree of a sheet.
ghost use Rattle.std.specs.Prelude.{◌≡◌, All, IfOk, OnOk, length, map, string_bytes};
ghost use Rattle.io_ports.specs.Given.{evidence_in, evidence_of};
ghost use Rattle.serde_json.specs.Data.{array};
ghost use Rattle.serde_json.specs.View.{items_of, members_view, view};
ghost use Rattle.row_sheets.specs.JsonText.{cell_tree, file_tree, row_tree, with_number, words_tree};
ghost use Rattle.row_sheets.specs.Sheets.{cell_of, cells_of, names_of, rows_of};

use crate::field::Field;
use io_ports::Given;
use serde_json::{Map, Value, json, put};
use std::alloc::{AllocError, Global};

// A field: a number or a string.
fn field_value(alloc: Global, field: &Field) -> Result<Value, AllocError>
    ensures { IfOk result (λ value. view value ≡ cell_tree (cell_of field.now)) }
{
    match field {
        Field::Whole(number) => Ok(Value::from(*number)),
        Field::Text(text) => Value::try_from_str(alloc, text.as_str()),
    }
}

// A row as an object.
fn row_value(alloc: Global, head: &[&str], row: &[Field]) -> Result<Value, AllocError>
    requires { length row.now ≡ length head.now }
    ensures { IfOk result (λ value. view value ≡ row_tree (names_of head.now) (cells_of row.now)) }
{
    let mut members = Map::new(alloc);
    for i in 0..head.len() {
        put(&mut members, alloc, head[i], field_value(alloc, &row[i])?)?;
    }
    Ok(Value::Object(members))
}

/// The rows, in their order.
pub(crate) fn rows_value(
    alloc: Global,
    head: &[&str],
    rows: &[Vec<Field>],
) -> Result<Value, AllocError>
    requires { All (λ row. length row.items ≡ length head.now) rows.now }
    ensures { IfOk result (λ value. view value
        ≡ array (items_of (map (row_tree (names_of head.now)) (rows_of rows.now)))) }
{
    let mut items = Vec::new(alloc);
    for i in 0..rows.len() {
        items.push(row_value(alloc, head, &rows[i])?)?;
    }
    Ok(Value::Array(items))
}

/// Some words.
pub(crate) fn words_value(alloc: Global, words: &[String]) -> Result<Value, AllocError>
    ensures { IfOk result (λ value. view value ≡ words_tree (map string_bytes words.now)) }
{
    let mut items = Vec::new(alloc);
    for i in 0..words.len() {
        items.push(Value::try_from_str(alloc, words[i].as_str())?)?;
    }
    Ok(Value::Array(items))
}

// A file that was read.
fn file_value(alloc: Global, file: &Given) -> Result<Value, AllocError>
    ensures { IfOk result (λ value. view value ≡ file_tree (evidence_in file.now)) }
{
    let name = String::from_utf8_lossy(alloc, &file.name)?;
    let digest = hex::encode(alloc, file.sha256.as_slice())?;
    json!(in alloc; {"bytes": file.bytes, "name": &name, "sha256": &digest})
}

/// The files that were read, in their order.
pub(crate) fn files_value(alloc: Global, files: &[Given]) -> Result<Value, AllocError>
    ensures { IfOk result (λ value. view value ≡ array (items_of (map file_tree (evidence_of files.now)))) }
{
    let mut items = Vec::new(alloc);
    for i in 0..files.len() {
        items.push(file_value(alloc, &files[i])?)?;
    }
    Ok(Value::Array(items))
}

/// Puts a number under a name, where there is one.
pub(crate) fn put_number(
    members: &mut Map<String, Value>,
    alloc: Global,
    name: &str,
    number: Option<u8>,
) -> Result<(), AllocError>
    ensures { OnOk result
        (members_view members.new.entries ≡ with_number name.now number (members_view members.old.entries)) }
{
    match number {
        Some(number) => put(members, alloc, name, Value::from(number)),
        None => Ok(()),
    }
}
