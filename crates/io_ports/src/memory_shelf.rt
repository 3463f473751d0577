// A shelf over pairs in memory, whose calls of listed numbers fail.
ghost use Rattle.std.specs.Prelude.{◌≡◌, ℕ, ◌+◌, ◌^◌, ◌<◌, ◌≤◌, ◌++◌};
ghost use Rattle.std.specs.Prelude.{Some, [], IfOk, IsErrOf, vec_len, option_copied};
ghost use Rattle.io_ports.specs.Files.{file_of, files_of, names_of, failure_of, AnswersFrom, IsErrOrMemory};
ghost use Rattle.io_ports.specs.Given.{evidence_of, given_by};

use crate::calls::Calls;
use crate::{FetchError, Given, Shelf};
use std::alloc::Global;

/// Pairs of name and bytes, of which the names are bytes of UTF-8 text. The first pair with a
/// name counts.
#[derive(Drop)]
pub struct MemoryShelf {
    files: Vec<(Vec<u8>, Vec<u8>)>,
    calls: Calls,
    failed: Vec<Vec<u8>>,
    given: Vec<Given>,
}

impl MemoryShelf {
    ghost use Rattle.io_ports.specs.MemoryShelf.{calls_of, failing_of};

    /// `failing` lists the numbers of the calls, from 1, that fail.
    pub fn new(alloc: Global, files: Vec<(Vec<u8>, Vec<u8>)>, failing: Vec<u64>) -> MemoryShelf
        ensures told { ⟦<MemoryShelf as Shelf>⟧.files result ≡ Some (files_of files.items) }
        ensures none_failed { ⟦<MemoryShelf as Shelf>⟧.failed result ≡ [] }
        ensures none_given { ⟦<MemoryShelf as Shelf>⟧.given result ≡ [] }
        ensures failing { failing_of result ≡ failing.items }
        ensures no_calls { calls_of result ≡ 0 }
    {
        MemoryShelf {
            files,
            calls: Calls::new(failing),
            failed: Vec::new(alloc),
            given: Vec::new(alloc),
        }
    }
}

// The bytes of the first pair with that name.
fn find<'a>(files: &'a [(Vec<u8>, Vec<u8>)], name: &[u8]) -> Option<&'a [u8]>
    ensures { option_copied result ≡ file_of name.now (files_of files.entry.now) }
{
    for file in files {
        if name == file.0.as_slice() {
            return Some(file.1.as_slice());
        }
    }
    None
}

impl Shelf for MemoryShelf {
    ghost use Rattle.io_ports.specs.Counts.{next_count};
    ghost use Rattle.io_ports.specs.MemoryShelf.{calls_of, failing_of, files_in, failed_in, given_in, MeetsFault};

    ghost files = { λ shelf. Some (files_of shelf.files.items) };

    ghost failed = { λ shelf. names_of shelf.failed.items };

    ghost given = { λ shelf. evidence_of shelf.given.items };

    fn fetch(&mut self, alloc: Global, name: &str, most: u64) -> Result<Vec<u8>, FetchError>
        requires { most < 2 ^ 32 }
        ensures bound { IfOk result (λ bytes. vec_len bytes ≤ most) }
        ensures told { AnswersFrom (Some (files_in self.old)) name.now most result }
        ensures failed { failed_in self.new ≡ failed_in self.old ++ failure_of name.now result }
        ensures seen { (seen : ℕ) → IsErrOf result (FetchError.TooLong seen) → seen ≡ most + 1 }
        ensures files { files_in self.new ≡ files_in self.old }
        ensures given { given_in self.new ≡ given_in self.old ++ given_by name.now result }

        // Exactly the calls of a listed number or of a name without a pair fail.
        ensures only_at_fault { IsErrOf result FetchError.Failed → MeetsFault self.old name.now }
        ensures at_fault { MeetsFault self.old name.now → IsErrOrMemory result FetchError.Failed }

        ensures calls { calls_of self.new ≡ next_count (calls_of self.old) }
        ensures failing { failing_of self.new ≡ failing_of self.old }
    {
        if !self.calls.next_fails() {
            if let Some(bytes) = find(&self.files, name.as_bytes()) {
                if bytes.len() as u64 > most {
                    return Err(FetchError::TooLong(most + 1));
                }
                // All room before the file counts as given.
                let copy = bytes.to_vec(alloc)?;
                let kept = name.as_bytes().to_vec(alloc)?;
                self.given.push(Given::of(kept, &copy))?;
                return Ok(copy);
            }
        }
        self.failed.push(name.as_bytes().to_vec(alloc)?)?;
        Err(FetchError::Failed)
    }

    fn given(&self) -> &[Given]
        ensures { evidence_of result.now ≡ given_in self.now }
    {
        &self.given
    }
}
