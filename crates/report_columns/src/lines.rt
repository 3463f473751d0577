// The lines of the three kinds of columns.
ghost use Rattle.std.specs.Prelude.{◌≡◌, ◌++◌, OnOk};
ghost use Rattle.report_columns.specs.Notes.{HasEnds};
ghost use Rattle.report_columns.specs.Lines.{word_of, in_format, sign_of, row_start, row_ends};
ghost use Rattle.report_columns.specs.Lines.{width_line, sign_line, fields_line};

use crate::note::{Note, What};
use decimal_out::{push_millionths, push_whole};
use std::alloc::AllocError;

impl What {
    /// The word that a row prints.
    pub fn word(self) -> &'static [u8]
        ensures { result.now ≡ word_of self }
    {
        match self {
            What::Value => b"value",
            What::Reserve => b"reserve",
            What::Occupancy => b"occupancy",
            What::First => b"first",
            What::Second => b"second",
            What::Variance => b"variance",
            What::Benefits => b"benefits",
            What::Pattern => b"pattern",
            What::Premium => b"premium",
            What::Total => b"total",
        }
    }
}

// The sign of all numbers between the ends of a row.
fn sign(note: &Note) -> u8
    ensures { result ≡ sign_of note.now.lo note.now.hi }
{
    if note.lo > 0 {
        b'+'
    } else if note.hi < 0 {
        b'-'
    } else if note.lo == 0 && note.hi == 0 {
        b'0'
    } else {
        b'?'
    }
}

/// Appends a number in the format of a row: whole, or in millionths.
pub fn push_number(out: &mut Vec<u8>, what: What, number: i128) -> Result<(), AllocError>
    ensures { OnOk result (out.new.items ≡ out.old.items ++ in_format what number) }
{
    match what {
        What::Second | What::Variance => push_whole(out, number),
        _ => push_millionths(out, number),
    }
}

// Appends the month and the state of a row, each with what parts it from the next field.
fn push_start(out: &mut Vec<u8>, note: &Note, part: u8) -> Result<(), AllocError>
    ensures { OnOk result (out.new.items ≡ out.old.items ++ row_start part note.now) }
{
    push_whole(out, note.month)?;
    out.push(part)?;
    push_whole(out, note.state)?;
    out.push(part)?;
    Ok(())
}

/// Appends the line of the width.
pub fn push_width_line(out: &mut Vec<u8>, note: &Note) -> Result<(), AllocError>
    requires { HasEnds note.now }
    ensures { OnOk result (out.new.items ≡ out.old.items ++ width_line note.now) }
{
    push_start(out, note, b' ')?;
    push_number(out, note.what, note.hi - note.lo)?;
    out.push(b'\n')?;
    Ok(())
}

/// Appends the line of the sign.
pub fn push_sign_line(out: &mut Vec<u8>, note: &Note) -> Result<(), AllocError>
    ensures { OnOk result (out.new.items ≡ out.old.items ++ sign_line note.now) }
{
    push_start(out, note, b' ')?;
    out.push(sign(note))?;
    out.push(b'\n')?;
    Ok(())
}

// Appends the ends of a row, and the line's end.
fn push_ends(out: &mut Vec<u8>, note: &Note) -> Result<(), AllocError>
    ensures { OnOk result (out.new.items ≡ out.old.items ++ row_ends note.now) }
{
    push_number(out, note.what, note.lo)?;
    out.push(b',')?;
    push_number(out, note.what, note.hi)?;
    out.push(b'\n')?;
    Ok(())
}

/// Appends the line of all fields.
pub fn push_fields_line(out: &mut Vec<u8>, note: &Note) -> Result<(), AllocError>
    ensures { OnOk result (out.new.items ≡ out.old.items ++ fields_line note.now) }
{
    push_start(out, note, b',')?;
    out.extend_from_slice(note.what.word())?;
    out.push(b',')?;
    push_ends(out, note)
}
