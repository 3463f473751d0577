// A sheet as JSON.
ghost use Rattle.std.specs.Prelude.{◌≡◌, Some, IfOk, OnOk};
ghost use Rattle.serde_json.specs.Read.{read};
ghost use Rattle.serde_json.specs.View.{members_view, view};
ghost use Rattle.row_sheets.specs.JsonText.{json_line, json_text, json_tree, told_always};

use crate::about::About;
use crate::json_parts::{files_value, put_number, rows_value, words_value};
use crate::sheet::Sheet;
use serde_json::{Map, Value, put};
use std::alloc::{AllocError, Global};

// The program with its version.
const TOOL: &str = "thiele_cli 1.0";

// What is told of every answer.
fn told_always(
    alloc: Global,
    about: &About,
    sheet: &Sheet,
) -> Result<Map<String, Value>, AllocError>
    ensures { IfOk result (λ members. members_view members.entries ≡ told_always about.now sheet.now) }
{
    let words = words_value(alloc, about.words)?;
    let files = files_value(alloc, about.files)?;
    let rows = rows_value(alloc, sheet.head(), sheet.rows())?;
    let mut members = Map::new(alloc);
    put(&mut members, alloc, "command", words)?;
    put(&mut members, alloc, "files", files)?;
    put(&mut members, alloc, "rows", rows)?;
    put(
        &mut members,
        alloc,
        "tool",
        Value::try_from_str(alloc, TOOL)?,
    )?;
    Ok(members)
}

// The tree of a sheet.
fn tree(alloc: Global, about: &About, sheet: &Sheet) -> Result<Value, AllocError>
    ensures { IfOk result (λ value. view value ≡ json_tree about.now sheet.now) }
{
    let mut members = told_always(alloc, about, sheet)?;
    put_number(&mut members, alloc, "degree", about.degree)?;
    put_number(&mut members, alloc, "scale", about.scale)?;
    Ok(Value::Object(members))
}

/// One line of JSON, with a line feed at its end: an object with the command, the files with their checksums, the rows,
/// the program, and the degree and the scale where the answer has them. Keys stand in alphabetical order. Whole numbers
/// are numbers, all else are strings. Reading the line gives the tree back. It fails only for want of memory.
pub fn json_bytes(alloc: Global, about: &About, sheet: &Sheet) -> Result<Vec<u8>, AllocError>
    ensures text { IfOk result (λ bytes. bytes.items ≡ json_text about.now sheet.now) }
    ensures reads { OnOk result (read (json_line about.now sheet.now) ≡ Some (json_tree about.now sheet.now)) }
{
    let mut bytes = tree(alloc, about, sheet)?.to_vec(alloc)?;
    bytes.push(b'\n')?;
    Ok(bytes)
}
