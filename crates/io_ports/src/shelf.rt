// A shelf gives whole files by their names, and keeps the names of the fetches that failed and evidence of the files
// that it gave.
ghost use Rattle.std.specs.Prelude.{◌≡◌, ◌≢◌, ℕ, ◌+◌, ◌^◌, ◌<◌, ◌≤◌, ◌++◌};
ghost use Rattle.std.specs.Prelude.{List, Option, IfOk, IsErrOf, vec_len};
ghost use Rattle.io_ports.specs.declared.shelf.FetchError.TheVariants.{Memory};
ghost use Rattle.io_ports.specs.Given.{Evidence, evidence_of, given_by};
ghost use Rattle.io_ports.specs.Files.{failure_of, AnswersFrom, IsMissing, IsLonger, IsErrOrMemory};

use crate::Given;
use std::alloc::{AllocError, AllocFailed, Global};

/// Why a file was not given: a fault outside, more bytes than were asked for (the number is that
/// of the bytes taken), or want of memory.
#[derive(Clone, Copy, Debug, PartialEq, Eq)]
pub enum FetchError {
    Failed,
    TooLong(u64),
    Memory,
}

impl From<AllocError> for FetchError {
    ghost from_gives = { λ _ e. e ≡ Memory };

    fn from(_: AllocError) -> Self {
        FetchError::Memory
    }
}

impl<T: Drop> From<AllocFailed<T>> for FetchError {
    ghost from_gives = { λ _ e. e ≡ Memory };

    fn from(_: AllocFailed<T>) -> Self {
        FetchError::Memory
    }
}

/// Where a program's files come from.
pub trait Shelf {
    /// The pairs of name and bytes of its files, where it tells them.
    ghost files: { Self → Option (List (List ℕ × List ℕ)) };

    /// The names whose fetch failed, the oldest first. Their number is the count of faults.
    ghost failed: { Self → List (List ℕ) };

    /// Evidence of each file that was given whole, the oldest first.
    ghost given: { Self → List Evidence };

    /// All bytes of the file of that name, of which there are at most `most`.
    fn fetch(&mut self, alloc: Global, name: &str, most: u64) -> Result<Vec<u8>, FetchError>
        requires { most < 2 ^ 32 }
        ensures bound { IfOk result (λ bytes. vec_len bytes ≤ most) }
        ensures told { AnswersFrom (files self.old) name.now most result }

        // `Failed` comes exactly where a name was added, and the name is this one.
        ensures failed { failed self.new ≡ failed self.old ++ failure_of name.now result }
        ensures missing { IsMissing (files self.old) name.now → IsErrOrMemory result FetchError.Failed }

        ensures seen { (seen : ℕ) → IsErrOf result (FetchError.TooLong seen) → seen ≡ most + 1 }
        ensures longer { IsLonger (files self.old) name.now most → result ≢ Err FetchError.Failed →
            IsErrOrMemory result (FetchError.TooLong (most + 1)) }

        ensures files { files self.new ≡ files self.old }

        // Evidence is added exactly where the file was given, and it is that of this name and these bytes.
        ensures given { given self.new ≡ given self.old ++ given_by name.now result };

    /// What is kept of each file that was given whole, the oldest first.
    fn given(&self) -> &[Given]
        ensures { evidence_of result.now ≡ given self.now };
}
