// The three columns of the program.
ghost use Rattle.std.specs.Prelude.{◌≡◌, []};
ghost use Rattle.std.proofs.Common.{lit≤};
ghost use Rattle.report_columns.specs.Notes.{width_kind, sign_kind, fields_kind};

use crate::column::Column;
use crate::lines::{push_fields_line, push_sign_line, push_width_line};
use crate::note::Note;
use std::alloc::{AllocError, Global};

/// How wide each interval is: `MONTH STATE WIDTH`.
#[derive(Drop)]
pub struct WidthColumn {
    alloc: Global,
    text: Vec<u8>,
}

impl WidthColumn {
    /// An empty column. It takes no memory.
    pub fn new(alloc: Global) -> WidthColumn
        ensures kind { ⟦<WidthColumn as Column>⟧.kind result ≡ width_kind }
        ensures text { ⟦<WidthColumn as Column>⟧.text result ≡ [] }
    {
        WidthColumn {
            alloc,
            text: Vec::new(alloc),
        }
    }
}

impl Column for WidthColumn {
    ghost kind = { λ _. width_kind };

    ghost text = { λ column. column.text.items };

    fn note(&mut self, note: &Note) -> Result<(), AllocError> {
        let mut line = Vec::new(self.alloc);
        push_width_line(&mut line, note)?;
        self.text.extend_from_slice(&line)
    }

    fn kind(&self) -> u8 {
        1
    }

    fn text(&self) -> &[u8] {
        &self.text
    }

    ghost known = { λ _. record { least = lit≤ tt; most = lit≤ tt } };
}

/// The sign of each interval: `MONTH STATE SIGN`, which is `?` where its ends leave it open.
#[derive(Drop)]
pub struct SignColumn {
    alloc: Global,
    text: Vec<u8>,
}

impl SignColumn {
    /// An empty column. It takes no memory.
    pub fn new(alloc: Global) -> SignColumn
        ensures kind { ⟦<SignColumn as Column>⟧.kind result ≡ sign_kind }
        ensures text { ⟦<SignColumn as Column>⟧.text result ≡ [] }
    {
        SignColumn {
            alloc,
            text: Vec::new(alloc),
        }
    }
}

impl Column for SignColumn {
    ghost kind = { λ _. sign_kind };

    ghost text = { λ column. column.text.items };

    fn note(&mut self, note: &Note) -> Result<(), AllocError> {
        let mut line = Vec::new(self.alloc);
        push_sign_line(&mut line, note)?;
        self.text.extend_from_slice(&line)
    }

    fn kind(&self) -> u8 {
        2
    }

    fn text(&self) -> &[u8] {
        &self.text
    }

    ghost known = { λ _. record { least = lit≤ tt; most = lit≤ tt } };
}

/// All fields of each row, for spreadsheets: `MONTH,STATE,WHAT,LO,HI`.
#[derive(Drop)]
pub struct CsvColumn {
    alloc: Global,
    text: Vec<u8>,
}

impl CsvColumn {
    /// An empty column. It takes no memory.
    pub fn new(alloc: Global) -> CsvColumn
        ensures kind { ⟦<CsvColumn as Column>⟧.kind result ≡ fields_kind }
        ensures text { ⟦<CsvColumn as Column>⟧.text result ≡ [] }
    {
        CsvColumn {
            alloc,
            text: Vec::new(alloc),
        }
    }
}

impl Column for CsvColumn {
    ghost kind = { λ _. fields_kind };

    ghost text = { λ column. column.text.items };

    fn note(&mut self, note: &Note) -> Result<(), AllocError> {
        let mut line = Vec::new(self.alloc);
        push_fields_line(&mut line, note)?;
        self.text.extend_from_slice(&line)
    }

    fn kind(&self) -> u8 {
        3
    }

    fn text(&self) -> &[u8] {
        &self.text
    }

    ghost known = { λ _. record { least = lit≤ tt; most = lit≤ tt } };
}
