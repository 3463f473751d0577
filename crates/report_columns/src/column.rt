// A column takes notes of rows and keeps its text.
ghost use Rattle.std.specs.Prelude.{◌≡◌, ℕ, List, ◌++◌, OnOk, OnErr};
ghost use Rattle.report_columns.specs.Lines.{column_line};
ghost use Rattle.report_columns.specs.Notes.{HasEnds, IsKind};

use crate::note::Note;
use std::alloc::AllocError;

/// A text with a line for each row that was noted.
pub trait Column: Drop {
    /// Which line it writes: 1 the width of the interval, 2 its sign, 3 all fields of the row, for spreadsheets.
    ghost kind: { Self → ℕ };

    /// The lines so far.
    ghost text: { Self → List ℕ };

    /// Adds the line of a row. Where memory is refused, the column stays as it was.
    fn note(&mut self, note: &Note) -> Result<(), AllocError>
        requires { HasEnds note.now }
        ensures ok { OnOk result (text self.new ≡ text self.old ++ column_line (kind self.old) note.now) }
        ensures err { OnErr result (text self.new ≡ text self.old) }
        ensures kind { kind self.new ≡ kind self.old };

    fn kind(&self) -> u8
        ensures { result ≡ kind self.now };

    fn text(&self) -> &[u8]
        ensures { result.now ≡ text self.now };

    ghost known: { (column : Self) → IsKind (kind column) };
}
