// Why a product file is refused.
ghost use Rattle.std.specs.Prelude.{◌≡◌, ◌++◌, OnOk};
ghost use Rattle.thiele_cli.specs.FileFaults.{fault_in, too_long};
ghost use Rattle.thiele_cli.specs.Refusals.{rule_words, file_words};

use decimal_out::push_whole;
use rule_breaks::RuleBreak;
use std::alloc::{AllocError, Global};

/// Why a product file is refused.
#[derive(Clone, Copy, Debug, PartialEq, Eq)]
pub enum FileBreak {
    /// It has more than 1,048,576 bytes, of which this many were taken.
    TooLong { seen: u64 },
    /// It is no TOML text.
    NotToml,
    /// It breaks this rule first, at its least place.
    Rule(RuleBreak),
}

/// Why a product file is refused, and its text, which is empty where it is too long.
#[derive(Drop)]
pub struct FileRefusal {
    pub cause: FileBreak,
    pub text: Vec<u8>,
}

impl FileRefusal {
    /// A file that is too long, of which so many bytes were taken.
    pub fn too_long(alloc: Global, seen: u64) -> FileRefusal
        ensures { fault_in result ≡ too_long seen }
    {
        FileRefusal {
            cause: FileBreak::TooLong { seen },
            text: Vec::new(alloc),
        }
    }
}

/// Appends the words that tell a broken rule.
pub fn push_rule(out: &mut Vec<u8>, found: RuleBreak) -> Result<(), AllocError>
    ensures { OnOk result (out.new.items ≡ out.old.items ++ rule_words found) }
{
    out.extend_from_slice(b"rule ")?;
    push_whole(out, found.rule)?;
    out.extend_from_slice(b" place ")?;
    push_whole(out, found.place)?;
    Ok(())
}

impl FileBreak {
    /// Appends the words that tell it.
    pub fn push_words(self, out: &mut Vec<u8>) -> Result<(), AllocError>
        ensures { OnOk result (out.new.items ≡ out.old.items ++ file_words self) }
    {
        match self {
            FileBreak::TooLong { seen } => {
                out.extend_from_slice(b"length ")?;
                push_whole(out, seen)?;
            }
            FileBreak::NotToml => out.extend_from_slice(b"toml")?,
            FileBreak::Rule(found) => push_rule(out, found)?,
        }
        Ok(())
    }
}
