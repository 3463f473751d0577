// Why a portfolio is refused by one of its product files.
ghost use Rattle.std.specs.Prelude.{◌≡◌, IfOk};
ghost use Rattle.thiele_cli.specs.Refusals.{policy_line};

use crate::file_break::{FileBreak, FileRefusal};
use decimal_out::push_whole;
use std::alloc::{AllocError, Global};

/// The first product file of a portfolio that is refused, by its place among the different files, counted from 0, and
/// why.
#[derive(Clone, Copy, Debug, PartialEq, Eq)]
pub struct PolicyBreak {
    pub file: u32,
    pub cause: FileBreak,
}

/// The first product file of a portfolio that is refused, by the same place, and its text.
#[derive(Drop)]
pub struct PolicyRefusal {
    pub file: u32,
    pub refused: FileRefusal,
}

impl PolicyBreak {
    /// The line that tells it.
    pub fn line(self, alloc: Global) -> Result<Vec<u8>, AllocError>
        ensures { IfOk result (λ text. text.items ≡ policy_line self) }
    {
        let mut text = b"refused policy file ".to_vec(alloc)?;
        push_whole(&mut text, self.file)?;
        text.push(b' ')?;
        self.cause.push_words(&mut text)?;
        text.push(b'\n')?;
        Ok(text)
    }
}
