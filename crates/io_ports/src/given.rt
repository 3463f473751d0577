// What a shelf keeps of a file that it gave.
ghost use Rattle.std.specs.Prelude.{◌≡◌};
ghost use Rattle.io_ports.specs.Given.{evidence_in, given_of};

use sha2::{Digest, Sha256};

/// A file that was given whole: its name, the number of its bytes, and their SHA-256.
#[derive(Drop, Debug, PartialEq, Eq)]
pub struct Given {
    pub name: Vec<u8>,
    pub bytes: u64,
    pub sha256: [u8; 32],
}

impl Given {
    /// What is kept of a file with this name and these bytes.
    pub fn of(name: Vec<u8>, bytes: &[u8]) -> Given
        ensures { evidence_in result ≡ given_of name.items bytes.now }
    {
        Given {
            name,
            bytes: bytes.len() as u64,
            sha256: Sha256::digest(bytes),
        }
    }
}
