// The sheet of a comparison.
ghost use Rattle.std.specs.Prelude.{◌≡◌, ◌<◌, length, IfOk};
ghost use Rattle.basis_compare.specs.ChangesText.{part_word, turn_word, HaveText};
ghost use Rattle.row_sheets.specs.Sheets.{cells_of};
ghost use Rattle.answer_sheets.specs.ChangesSheet.{change_row, changes_sheet_of};

use crate::fields::{amount_field, size_field, state_field, word_field};
use basis_compare::{Change, Changes, Part, Turn};
use product_model::Product;
use row_sheets::{Field, Sheet};
use std::alloc::{AllocError, Global};

const HEAD: &[&str] = &["month", "state", "part", "lo", "hi", "tolerance", "turn"];

// The word of a part.
fn part_name(part: Part) -> &'static str
    ensures { result.now ≡ part_word part }
{
    match part {
        Part::Interest => "interest",
        Part::Rest => "rest",
        Part::Total => "total",
    }
}

// The word of a turn.
fn turn_name(turn: Turn) -> &'static str
    ensures { result.now ≡ turn_word turn }
{
    match turn {
        Turn::Above => "above",
        Turn::Below => "below",
        Turn::Open => "open",
    }
}

// A change as fields.
fn row_fields(alloc: Global, a: &Product, row: &Change) -> Result<Vec<Field>, AllocError>
    requires { row.now.state < length a.now.states }
    ensures { IfOk result (λ fields. cells_of fields.items ≡ change_row a.now row.now) }
{
    let mut fields = Vec::new(alloc);
    fields.push(Field::Whole(u64::from(row.month)))?;
    fields.push(state_field(alloc, a, row.state)?)?;
    fields.push(word_field(alloc, part_name(row.part))?)?;
    fields.push(amount_field(alloc, row.lo)?)?;
    fields.push(amount_field(alloc, row.hi)?)?;
    fields.push(size_field(alloc, row.tol)?)?;
    fields.push(word_field(alloc, turn_name(row.turn))?)?;
    Ok(fields)
}

/// The sheet of the changes from a basis `a` to another one: a row for each change, in their order. It fails only for
/// want of memory.
pub fn changes_sheet(alloc: Global, a: &Product, changes: &Changes) -> Result<Sheet, AllocError>
    requires { HaveText a.now changes.now }
    ensures { IfOk result (λ sheet. sheet ≡ changes_sheet_of a.now changes.now) }
{
    let mut sheet = Sheet::new(alloc, HEAD);
    for i in 0..changes.rows.len() {
        sheet.push(row_fields(alloc, a, &changes.rows[i])?)?;
    }
    Ok(sheet)
}
