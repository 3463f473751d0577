//! The text of a comparison.

ghost use Rattle.std.specs.Prelude.{◌≡◌, ◌++◌, ◌<◌, All, length, OnOk, IfOk};
ghost use Rattle.basis_compare.specs.ChangesText.{part_word, turn_word, change_subject, change_ends, change_turn};
ghost use Rattle.basis_compare.specs.ChangesText.{change_line, change_lines, head_lines, changes_text, HaveText};

use crate::change_rows::{Change, Changes, Part, Turn};
use decimal_out::{push_millionths, push_size, push_whole};
use product_model::Product;
use std::alloc::{AllocError, Global};

impl Part {
    fn word(self) -> &'static [u8]
        ensures { result.now ≡ part_word self }
    {
        match self {
            Part::Interest => b"interest",
            Part::Rest => b"rest",
            Part::Total => b"total",
        }
    }
}

impl Turn {
    fn word(self) -> &'static [u8]
        ensures { result.now ≡ turn_word self }
    {
        match self {
            Turn::Above => b"above",
            Turn::Below => b"below",
            Turn::Open => b"open",
        }
    }
}

// Appends what a row is about.
fn push_subject(out: &mut Vec<u8>, a: &Product, row: &Change) -> Result<(), AllocError>
    requires { row.now.state < length a.now.states }
    ensures { OnOk result (out.new.items ≡ out.old.items ++ change_subject a.now row.now) }
{
    push_whole(out, row.month)?;
    out.push(b' ')?;
    out.extend_from_slice(a.graph().name(row.state as usize))?;
    out.push(b' ')?;
    out.extend_from_slice(row.part.word())?;
    out.push(b' ')?;
    Ok(())
}

// Appends the ends of a row.
fn push_ends(out: &mut Vec<u8>, row: &Change) -> Result<(), AllocError>
    ensures { OnOk result (out.new.items ≡ out.old.items ++ change_ends row.now) }
{
    push_millionths(out, row.lo)?;
    out.push(b' ')?;
    push_millionths(out, row.hi)?;
    out.push(b' ')?;
    Ok(())
}

// Appends the tolerance and the turn of a row.
fn push_turn(out: &mut Vec<u8>, row: &Change) -> Result<(), AllocError>
    ensures { OnOk result (out.new.items ≡ out.old.items ++ change_turn row.now) }
{
    push_size(out, row.tol)?;
    out.push(b' ')?;
    out.extend_from_slice(row.turn.word())?;
    out.push(b'\n')?;
    Ok(())
}

// Appends the line of a row.
fn push_row(out: &mut Vec<u8>, a: &Product, row: &Change) -> Result<(), AllocError>
    requires { row.now.state < length a.now.states }
    ensures { OnOk result (out.new.items ≡ out.old.items ++ change_line a.now row.now) }
{
    push_subject(out, a, row)?;
    push_ends(out, row)?;
    push_turn(out, row)
}

// Appends the lines of the rows.
fn push_rows(out: &mut Vec<u8>, a: &Product, rows: &[Change]) -> Result<(), AllocError>
    requires { All (λ row. row.state < length a.now.states) rows.now }
    ensures { OnOk result (out.new.items ≡ out.old.items ++ change_lines a.now rows.now) }
{
    for i in 0..rows.len() {
        push_row(out, a, &rows[i])?;
    }
    Ok(())
}

// Appends the first two lines.
fn push_head(out: &mut Vec<u8>, a: &Product, b: &Product, degree: u8) -> Result<(), AllocError>
    ensures { OnOk result (out.new.items ≡ out.old.items ++ head_lines a.now b.now degree) }
{
    out.extend_from_slice(b"compare ")?;
    out.extend_from_slice(a.name())?;
    out.push(b' ')?;
    out.extend_from_slice(b.name())?;
    out.extend_from_slice(b"\ndegree ")?;
    push_whole(out, degree)?;
    out.push(b'\n')?;
    Ok(())
}

/// The text of the changes from one basis to another: the names of both, the degree, a line for each row, and the
/// number of rows.
pub fn changes_bytes(
    alloc: Global,
    a: &Product,
    b: &Product,
    changes: &Changes,
) -> Result<Vec<u8>, AllocError>
    requires { HaveText a.now changes.now }
    ensures { IfOk result (λ text. text.items ≡ changes_text a.now b.now changes.now) }
{
    let mut text = Vec::new(alloc);
    push_head(&mut text, a, b, changes.degree)?;
    push_rows(&mut text, a, &changes.rows)?;
    text.extend_from_slice(b"end ")?;
    push_whole(&mut text, changes.rows.len())?;
    text.push(b'\n')?;
    Ok(text)
}
