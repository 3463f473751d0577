ghost use Rattle.std.proofs.Common.{lit≤};
ghost use Rattle.report_columns.specs.Notes.{width_kind};

use super::{shelf, sink, words};
use crate::run::run;
use report_columns::{Column, CsvColumn, Note, SignColumn, WidthColumn};
use std::alloc::AllocError;
use std::test::Fail;

#[test]
fn columns_stand_behind_the_rows(rt: HostRuntime) -> Result<(), Fail> {
    let alloc = rt.alloc();
    let mut columns: Vec<Box<dyn Column>> = Vec::new(alloc);
    columns.push(Box::new(alloc, WidthColumn::new(alloc))?)?;
    columns.push(Box::new(alloc, SignColumn::new(alloc))?)?;
    columns.push(Box::new(alloc, CsvColumn::new(alloc))?)?;
    let mut sink = sink(alloc, &[])?;
    let finish = run(
        alloc,
        &words(alloc, &["value", "flat"])?,
        &mut shelf(alloc, &[])?,
        &mut sink,
        columns,
    );
    assert_eq!(rt; finish.status, 0);
    let text =
        "report value flat\ndegree 8 scale 10\n0 on value 383.999999 384.000001 0.000003\nend 1\n\
        column 1\n0 0 0.000002\ncolumn 2\n0 0 +\ncolumn 3\n0,0,value,383.999999,384.000001\n";
    assert!(rt; sink.bytes() == text.as_bytes());
    Ok(())
}

/// A column of widths that takes two rows and refuses the third.
#[derive(Drop)]
struct TwoRows {
    widths: WidthColumn,
    left: u8,
}

impl Column for TwoRows {
    ghost kind = { λ _. width_kind };

    ghost text = { λ column. ⟦<WidthColumn as Column>⟧.text column.widths };

    fn note(&mut self, note: &Note) -> Result<(), AllocError> {
        if self.left == 0 {
            return Err(AllocError);
        }
        self.widths.note(note)?;
        self.left -= 1;
        Ok(())
    }

    fn kind(&self) -> u8 {
        self.widths.kind()
    }

    fn text(&self) -> &[u8] {
        self.widths.text()
    }

    ghost known = { λ _. record { least = lit≤ tt; most = lit≤ tt } };
}

#[test]
fn a_column_that_fails_leaves_nothing_written(rt: HostRuntime) -> Result<(), Fail> {
    let alloc = rt.alloc();
    let mut columns: Vec<Box<dyn Column>> = Vec::new(alloc);
    let column = TwoRows {
        widths: WidthColumn::new(alloc),
        left: 2,
    };
    columns.push(Box::new(alloc, column)?)?;
    let mut sink = sink(alloc, &[])?;
    // four dates
    let finish = run(
        alloc,
        &words(alloc, &["reserves", "flat", "4"])?,
        &mut shelf(alloc, &[])?,
        &mut sink,
        columns,
    );
    assert_eq!(rt; finish.status, 9);
    assert!(rt; finish.report.is_none());
    assert!(rt; sink.bytes().is_empty());
    Ok(())
}
