// A shelf over real files. It tells none of them.
ghost use Rattle.std.specs.Prelude.{◌≡◌, ℕ, ◌+◌, ◌-◌, ◌^◌, ◌<◌, ◌≤◌, ◌++◌};
ghost use Rattle.std.specs.Prelude.{[], None, IfOk, IsErrOf, vec_len};
ghost use Rattle.std.specs.Io.KnownBytes.{Consumes, IsAtEnd};
ghost use Rattle.io_ports.specs.Files.{names_of, failure_of};
ghost use Rattle.io_ports.specs.Given.{evidence_of, given_by};
ghost use Rattle.io_ports.specs.Reads.{ConsumesMany, IsReadWhole, IsReadTo};

use crate::{FetchError, Given, Shelf};
use std::alloc::Global;
use std::fs;
use std::io::Read;
use std::rt::Files;

/// The files of the system, by their paths. Each failure of the system is a fault.
#[derive(Drop)]
pub struct FileShelf<'a, R: Files> {
    rt: &'a R,
    failed: Vec<Vec<u8>>,
    given: Vec<Given>,
}

impl<'a, R: Files> FileShelf<'a, R> {
    pub fn new(rt: &'a R, alloc: Global) -> FileShelf<'a, R>
        ensures told { ⟦<FileShelf<'a, R> as Shelf>⟧.files result ≡ None }
        ensures none_failed { ⟦<FileShelf<'a, R> as Shelf>⟧.failed result ≡ [] }
        ensures none_given { ⟦<FileShelf<'a, R> as Shelf>⟧.given result ≡ [] }
    {
        FileShelf {
            rt,
            failed: Vec::new(alloc),
            given: Vec::new(alloc),
        }
    }
}

/// The most bytes of one read.
const CHUNK: usize = 4096;

// Reads to the end, or until `most + 1` bytes were taken. Each turn takes a byte or is the last.
fn read_whole<F: Read>(file: &mut F, alloc: Global, most: u64) -> Result<Vec<u8>, FetchError>
    requires { most < 2 ^ 32 }
    ensures bound { IfOk result (λ bytes. vec_len bytes ≤ most) }
    ensures whole { IfOk result (λ bytes.
        Consumes (F.remaining file.old) (F.remaining file.new) bytes.items) }
    ensures end { IfOk result (λ _. IsAtEnd (F.remaining file.new)) }
    ensures seen { (seen : ℕ) → IsErrOf result (FetchError.TooLong seen) → seen ≡ most + 1 }
    ensures taken { (seen : ℕ) → IsErrOf result (FetchError.TooLong seen) →
        ConsumesMany (F.remaining file.old) (F.remaining file.new) seen }
{
    let mut chunk = [0u8; CHUNK];
    let mut bytes = Vec::new(alloc);
    while (bytes.len() as u64) <= most {
        let left = (most + 1 - bytes.len() as u64).min(CHUNK as u64);
        match file.read(&mut chunk[..left as usize]) {
            Ok(0) => return Ok(bytes),
            Ok(count) => bytes.extend_from_slice(&chunk[..count])?,
            Err(_) => return Err(FetchError::Failed),
        }
    }
    Err(FetchError::TooLong(most + 1))
}

fn read_file<R: Files>(rt: &R, alloc: Global, name: &str, most: u64) -> Result<Vec<u8>, FetchError>
    requires { most < 2 ^ 32 }
    ensures bound { IfOk result (λ bytes. vec_len bytes ≤ most) }
    ensures whole { IfOk result (λ bytes. IsReadWhole R.File.remaining bytes.items) }
    ensures seen { (seen : ℕ) → IsErrOf result (FetchError.TooLong seen) → seen ≡ most + 1 }
    ensures taken { (seen : ℕ) → IsErrOf result (FetchError.TooLong seen) → IsReadTo R.File.remaining seen }
{
    match fs::open(rt, name) {
        Ok(mut file) => read_whole(&mut file, alloc, most),
        Err(_) => Err(FetchError::Failed),
    }
}

impl<R: Files> Shelf for FileShelf<'_, R> {
    ghost use Rattle.io_ports.specs.FileShelf.{failed_in, given_in};

    ghost files = { λ shelf. None };

    ghost failed = { λ shelf. names_of shelf.failed.items };

    ghost given = { λ shelf. evidence_of shelf.given.items };

    fn fetch(&mut self, alloc: Global, name: &str, most: u64) -> Result<Vec<u8>, FetchError>
        requires { most < 2 ^ 32 }
        ensures bound { IfOk result (λ bytes. vec_len bytes ≤ most) }
        ensures whole { IfOk result (λ bytes. IsReadWhole R.File.remaining bytes.items) }
        ensures failed { failed_in self.new ≡ failed_in self.old ++ failure_of name.now result }
        ensures seen { (seen : ℕ) → IsErrOf result (FetchError.TooLong seen) → seen ≡ most + 1 }
        ensures taken { (seen : ℕ) → IsErrOf result (FetchError.TooLong seen) →
            IsReadTo R.File.remaining seen }
        ensures given { given_in self.new ≡ given_in self.old ++ given_by name.now result }
    {
        // Room for what is kept first, so that each failure and each file is kept.
        let kept = name.as_bytes().to_vec(alloc)?;
        self.failed.reserve(1)?;
        self.given.reserve(1)?;
        let result = read_file(self.rt, alloc, name, most);
        match &result {
            Ok(bytes) => self.given.push(Given::of(kept, bytes)).unwrap(),
            Err(FetchError::Failed) => self.failed.push(kept).unwrap(),
            Err(_) => {}
        }
        result
    }

    fn given(&self) -> &[Given]
        ensures { evidence_of result.now ≡ given_in self.now }
    {
        &self.given
    }
}
