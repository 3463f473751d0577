ghost use Rattle.std.proofs.Common.{lit≤};

use crate::{Column, CsvColumn, Note, SignColumn, What, WidthColumn, push_columns, tell_rows};
use std::alloc::AllocError;
use std::test::Fail;

const OPEN: Note = Note {
    month: 12,
    state: 0,
    what: What::Reserve,
    lo: -1,
    hi: 2,
};

const SQUARES: Note = Note {
    month: 0,
    state: 3,
    what: What::Variance,
    lo: 5,
    hi: 1_000_007,
};

const DEBT: Note = Note {
    month: 1200,
    state: 11,
    what: What::Value,
    lo: -2_500_000,
    hi: -2_499_999,
};

const NOTHING: Note = Note {
    month: 1,
    state: 1,
    what: What::Occupancy,
    lo: 0,
    hi: 0,
};

#[test]
fn boxed_columns_write_their_lines(rt: HostRuntime) -> Result<(), Fail> {
    let alloc = rt.alloc();
    let width: Box<dyn Column> = Box::new(alloc, WidthColumn::new(alloc))?;
    let sign: Box<dyn Column> = Box::new(alloc, SignColumn::new(alloc))?;
    let fields: Box<dyn Column> = Box::new(alloc, CsvColumn::new(alloc))?;
    let wanted_fields = "12,0,reserve,-0.000001,0.000002\n0,3,variance,5,1000007\n\
        1200,11,value,-2.500000,-2.499999\n1,1,occupancy,0.000000,0.000000\n";
    for (mut column, kind, wanted) in [
        (
            width,
            1,
            "12 0 0.000003\n0 3 1000002\n1200 11 0.000001\n1 1 0.000000\n",
        ),
        (sign, 2, "12 0 ?\n0 3 +\n1200 11 -\n1 1 0\n"),
        (fields, 3, wanted_fields),
    ] {
        column.note(&OPEN)?;
        column.note(&SQUARES)?;
        column.note(&DEBT)?;
        column.note(&NOTHING)?;
        assert_eq!(rt; column.kind(), kind);
        assert_eq!(rt; column.text(), wanted.as_bytes());
    }
    Ok(())
}

#[test]
fn all_columns_are_told_of_all_rows(rt: HostRuntime) -> Result<(), Fail> {
    let alloc = rt.alloc();
    let mut columns: Vec<Box<dyn Column>> = Vec::new(alloc);
    columns.push(Box::new(alloc, CsvColumn::new(alloc))?)?;
    columns.push(Box::new(alloc, SignColumn::new(alloc))?)?;
    tell_rows(&mut columns, &[OPEN, NOTHING])?;
    tell_rows(&mut columns, &[DEBT])?;
    let mut text = b"end 3\n".to_vec(alloc)?;
    push_columns(&mut text, &columns)?;
    let wanted =
        "end 3\ncolumn 3\n12,0,reserve,-0.000001,0.000002\n1,1,occupancy,0.000000,0.000000\n\
        1200,11,value,-2.500000,-2.499999\ncolumn 2\n12 0 ?\n1 1 0\n1200 11 -\n";
    assert_eq!(rt; text.as_slice(), wanted.as_bytes());
    Ok(())
}

// A column of a caller: its third note is refused.
#[derive(Drop)]
struct FailingColumn {
    inner: SignColumn,
    notes: u8,
}

impl Column for FailingColumn {
    ghost kind = { λ column. ⟦<SignColumn as Column>⟧.kind column.inner };

    ghost text = { λ column. ⟦<SignColumn as Column>⟧.text column.inner };

    fn note(&mut self, note: &Note) -> Result<(), AllocError> {
        if self.notes == 2 {
            return Err(AllocError);
        }
        self.notes = self.notes.saturating_add(1);
        self.inner.note(note)
    }

    fn kind(&self) -> u8 {
        self.inner.kind()
    }

    fn text(&self) -> &[u8] {
        self.inner.text()
    }

    ghost known = { λ _. record { least = lit≤ tt; most = lit≤ tt } };
}

#[test]
fn a_column_that_fails_keeps_its_lines(rt: HostRuntime) -> Result<(), Fail> {
    let alloc = rt.alloc();
    let mut column = FailingColumn {
        inner: SignColumn::new(alloc),
        notes: 0,
    };
    column.note(&OPEN)?;
    column.note(&SQUARES)?;
    assert_eq!(rt; column.note(&DEBT), Err(AllocError));
    assert_eq!(rt; column.text(), b"12 0 ?\n0 3 +\n".as_slice());
    Ok(())
}
