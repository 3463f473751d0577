// Rows of fields under the names of their columns.
ghost use Rattle.std.specs.Prelude.{◌≡◌, ◌<◌, All, IsAscii, length, OnErr, OnOk};
ghost use Rattle.row_sheets.specs.Sheets.{cells_of, empty, names_of, rows_of, with_row, IsFilled};

use crate::field::Field;
use std::alloc::{AllocError, Global};
use std::marker::Model;

/// Rows of fields under the names of their columns. Each row has a field in each column.
#[derive(Drop)]
pub struct Sheet {
    head: &'static [&'static str],
    rows: Vec<Vec<Field>>,
}

impl Model for Sheet {
    ghost use Rattle.row_sheets.specs.Sheets.{names_of, rows_of, IsFilled, Contents};

    ghost Value = { Contents };

    ghost view = { λ sheet. record { head = names_of sheet.head.now; rows = rows_of sheet.rows.items } };

    ghost invariant = { λ sheet. IsFilled
        (record { head = names_of sheet.head.now; rows = rows_of sheet.rows.items }) };
}

impl Sheet {
    /// A sheet without rows. The names of its columns are ASCII.
    pub fn new(alloc: Global, head: &'static [&'static str]) -> Sheet
        requires some { 0 < length head.now }
        requires names { All IsAscii (names_of head.now) }
        ensures { result ≡ empty (names_of head.now) }
    {
        Sheet {
            head,
            rows: Vec::new(alloc),
        }
    }

    /// Adds a row below the others. Where memory is refused, the sheet stays as it was.
    pub fn push(&mut self, row: Vec<Field>) -> Result<(), AllocError>
        requires { length row.items ≡ length self.old.head }
        ensures ok { OnOk result (self.new ≡ with_row self.old (cells_of row.items)) }
        ensures err { OnErr result (self.new ≡ self.old) }
    {
        self.rows.push(row)?;
        Ok(())
    }

    /// The names of the columns.
    pub(crate) fn head(&self) -> &[&str]
        ensures names { names_of result.now ≡ self.now.head }
        ensures count { length result.now ≡ length self.now.head }
        ensures lawful { IsFilled self.now }
    {
        self.head
    }

    /// The rows, each with a field in each column.
    pub(crate) fn rows(&self) -> &[Vec<Field>]
        ensures rows { rows_of result.now ≡ self.now.rows }
        ensures even { All (λ row. length row.items ≡ length self.now.head) result.now }
    {
        &self.rows
    }
}
