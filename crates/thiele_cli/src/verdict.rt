// The verdict on the bytes of a file: its product with its ledgers, or why it has none.
ghost use Rattle.std.specs.Prelude.{◌≡◌, IfOk};
ghost use Rattle.thiele_cli.specs.declared.verdict.Verdict.TheVariants as verdict;
ghost use Rattle.thiele_cli.specs.Verdicts.{IsVerdictOn};

use crate::file_break::{FileBreak, FileRefusal};
use product_reader::{ReadError, read_product};
use rate_bounds::{AdmitError, Admitted, admit};
use std::alloc::{AllocError, Global};

/// What a product file is: a product that is admitted, or refused.
#[derive(Drop)]
pub enum Verdict {
    Admitted(Admitted),
    Refused(FileRefusal),
}

// Bytes that are refused by this cause.
fn refused(cause: FileBreak, text: Vec<u8>) -> Verdict
    ensures { result ≡ verdict.Refused (record { cause = cause; text = text }) }
{
    Verdict::Refused(FileRefusal { cause, text })
}

/// Reads the product of a file and admits it by all rules. Bytes that are refused are kept.
pub fn verdict_on(alloc: Global, bytes: Vec<u8>) -> Result<Verdict, AllocError>
    ensures { IfOk result (IsVerdictOn bytes.items) }
{
    let product = match read_product(alloc, &bytes) {
        Ok(product) => product,
        Err(ReadError::NotToml) => return Ok(refused(FileBreak::NotToml, bytes)),
        Err(ReadError::Rule(found)) => return Ok(refused(FileBreak::Rule(found), bytes)),
        Err(ReadError::Memory) => return Err(AllocError),
    };
    match admit(alloc, product) {
        Ok(admitted) => Ok(Verdict::Admitted(admitted)),
        Err(AdmitError::Rule(found)) => Ok(refused(FileBreak::Rule(found), bytes)),
        Err(AdmitError::Memory) => Err(AllocError),
    }
}
