// Fetches files, and reads product files.
ghost use Rattle.std.specs.Prelude.{◌≡◌, ◌++◌, [], ◌∷◌, IfOk, OnOk, IsErrOf};
ghost use Rattle.thiele_cli.specs.Fetches.{IsFetched};
ghost use Rattle.thiele_cli.specs.Verdicts.{IsVerdictOnFile};

use crate::fault::Fault;
use crate::file_break::FileRefusal;
use crate::verdict::{Verdict, verdict_on};
use io_ports::{FetchError, Shelf};
use named_numbers::MOST_FILE_BYTES;
use std::alloc::Global;

/// What a shelf gives of a file.
#[derive(Drop)]
pub enum Fetched {
    /// All its bytes, at most 1,048,576.
    Bytes(Vec<u8>),
    /// It has more of them, and so many were taken.
    TooLong { seen: u64 },
}

/// Fetches the file of that name.
pub fn fetch_file<H: Shelf>(alloc: Global, name: &str, shelf: &mut H) -> Result<Fetched, Fault>
    ensures fetched { IfOk result (IsFetched (H.files shelf.old) name.now) }
    ensures none_failed { OnOk result (H.failed shelf.new ≡ H.failed shelf.old) }
    ensures not_fetched { IsErrOf result Fault.Fetch → H.failed shelf.new ≡ H.failed shelf.old ++ name.now ∷ [] }
    ensures memory { IsErrOf result Fault.Memory → H.failed shelf.new ≡ H.failed shelf.old }
    ensures files { H.files shelf.new ≡ H.files shelf.old }
{
    match shelf.fetch(alloc, name, MOST_FILE_BYTES) {
        Ok(bytes) => Ok(Fetched::Bytes(bytes)),
        Err(FetchError::TooLong(seen)) => Ok(Fetched::TooLong { seen }),
        Err(FetchError::Failed) => Err(Fault::Fetch),
        Err(FetchError::Memory) => Err(Fault::Memory),
    }
}

/// Fetches the product file of that name, reads its product and admits it.
pub fn file_verdict<H: Shelf>(alloc: Global, name: &str, shelf: &mut H) -> Result<Verdict, Fault>
    ensures verdict { IfOk result (IsVerdictOnFile (H.files shelf.old) name.now) }
    ensures none_failed { OnOk result (H.failed shelf.new ≡ H.failed shelf.old) }
    ensures not_fetched { IsErrOf result Fault.Fetch → H.failed shelf.new ≡ H.failed shelf.old ++ name.now ∷ [] }
    ensures memory { IsErrOf result Fault.Memory → H.failed shelf.new ≡ H.failed shelf.old }
    ensures files { H.files shelf.new ≡ H.files shelf.old }
{
    match fetch_file(alloc, name, shelf)? {
        Fetched::Bytes(bytes) => Ok(verdict_on(alloc, bytes)?),
        Fetched::TooLong { seen } => Ok(Verdict::Refused(FileRefusal::too_long(alloc, seen))),
    }
}
