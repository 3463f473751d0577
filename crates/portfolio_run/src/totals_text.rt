// The text of the totals of a portfolio.
ghost use Rattle.std.specs.Prelude.{◌≡◌, ◌++◌, ◌<◌, ◌^◌, length, OnOk, OnErr, IfOk};
ghost use Rattle.report_columns.specs.Columns.{all_told, columns_of, AreToldFirst};
ghost use Rattle.portfolio_run.specs.TotalsText.{counted, group_line, group_lines, groups_text, head_lines};
ghost use Rattle.portfolio_run.specs.TotalsText.{notes_from, notes_of, total_ends, totals_text, HaveText};

use crate::totals::{Total, Totals};
use decimal_out::{push_millionths, push_size, push_whole};
use report_columns::{Column, Note, What, push_columns, tell_rows};
use std::alloc::{AllocError, Global};

// The groups as columns are told of them.
fn notes_of(alloc: Global, groups: &[Total]) -> Result<Vec<Note>, AllocError>
    requires { length groups.now < 2 ^ 32 }
    ensures { IfOk result (λ notes. notes.items ≡ notes_from 0 groups.now) }
{
    let mut notes = Vec::new(alloc);
    for i in 0..groups.len() {
        let group = &groups[i];
        notes.push(Note {
            month: 0,
            state: i as u32,
            what: What::Total,
            lo: group.lo,
            hi: group.hi,
        })?;
    }
    Ok(notes)
}

// Appends the ends of a group.
fn push_ends(out: &mut Vec<u8>, total: &Total) -> Result<(), AllocError>
    ensures { OnOk result (out.new.items ≡ out.old.items ++ total_ends total.now) }
{
    push_millionths(out, total.lo)?;
    out.push(b' ')?;
    push_millionths(out, total.hi)?;
    out.push(b' ')?;
    Ok(())
}

// Appends the line of a group.
fn push_group(out: &mut Vec<u8>, total: &Total) -> Result<(), AllocError>
    ensures { OnOk result (out.new.items ≡ out.old.items ++ group_line total.now) }
{
    out.extend_from_slice(&total.name)?;
    out.push(b' ')?;
    push_ends(out, total)?;
    push_size(out, total.tol)?;
    out.push(b'\n')?;
    Ok(())
}

// Appends the lines of the groups.
fn push_groups(out: &mut Vec<u8>, groups: &[Total]) -> Result<(), AllocError>
    ensures { OnOk result (out.new.items ≡ out.old.items ++ group_lines groups.now) }
{
    for i in 0..groups.len() {
        push_group(out, &groups[i])?;
    }
    Ok(())
}

// Appends some words, and a number behind them.
fn push_count(out: &mut Vec<u8>, words: &[u8], number: u64) -> Result<(), AllocError>
    ensures { OnOk result (out.new.items ≡ out.old.items ++ counted words.now number) }
{
    out.extend_from_slice(words)?;
    push_whole(out, number)?;
    Ok(())
}

// Appends the first two lines.
fn push_head(out: &mut Vec<u8>, totals: &Totals) -> Result<(), AllocError>
    ensures { OnOk result (out.new.items ≡ out.old.items ++ head_lines totals.now) }
{
    push_count(out, b"portfolio\ndegree ", u64::from(totals.degree))?;
    push_count(out, b" policies ", totals.policies)?;
    push_count(out, b" groups ", totals.groups.len() as u64)?;
    out.push(b'\n')?;
    Ok(())
}

// The text up to the columns.
fn groups_bytes(alloc: Global, totals: &Totals) -> Result<Vec<u8>, AllocError>
    ensures { IfOk result (λ bytes. bytes.items ≡ groups_text totals.now) }
{
    let mut bytes = Vec::new(alloc);
    push_head(&mut bytes, totals)?;
    push_groups(&mut bytes, &totals.groups)?;
    push_count(&mut bytes, b"end ", totals.groups.len() as u64)?;
    bytes.push(b'\n')?;
    Ok(bytes)
}

/// The text of the totals of a portfolio. Each column is told of each group, the groups in order and for each group the
/// columns in order, and then the columns stand below the groups. Where memory is refused, a column keeps the lines of
/// the groups that it was told of.
pub fn totals_bytes(
    alloc: Global,
    totals: &Totals,
    columns: &mut Vec<Box<dyn Column>>,
) -> Result<Vec<u8>, AllocError>
    requires { HaveText totals.now }
    ensures text { IfOk result
        (λ bytes. bytes.items ≡ totals_text totals.now (columns_of kind text columns.old.items)) }
    ensures told { OnOk result
        (columns_of kind text columns.new.items
        ≡ all_told (notes_of totals.now) (columns_of kind text columns.old.items)) }
    ensures err { OnErr result
        (AreToldFirst (notes_of totals.now)
        (columns_of kind text columns.old.items) (columns_of kind text columns.new.items)) }
{
    let notes = notes_of(alloc, &totals.groups)?;
    tell_rows(columns, &notes)?;
    let mut bytes = groups_bytes(alloc, totals)?;
    push_columns(&mut bytes, columns)?;
    Ok(bytes)
}
