// What the program tells of itself.
ghost use Rattle.std.specs.Prelude.{◌≡◌, IfOk};
ghost use Rattle.thiele_cli.specs.Pages.{page_text};

use std::alloc::{AllocError, Global};

// The words of all commands, by kind.
const HELP: &[u8] = b"\
files: upgrade FILE, join A B, shift FILE RATE, multiply FILE FROM TO FACTOR, charge FILE AMOUNT
limits: check FILE
values: value FILE, reserves FILE EVERY, occupancy FILE EVERY, moments FILE EVERY, premium FILE
seeds: generate SEED, load SEED
judgements: compare A B EVERY, audit FILE CSV EPS
groups: portfolio CSV, merge CSV
rows of values, judgements and groups: csv COMMAND .., json COMMAND ..
refusals: explain COMMAND ..
pages: help, version
";

// The program and the kit that proved and built it.
const VERSION: &[u8] = b"thiele_cli 1.0 rattle-kit-13f\n";

/// What the program tells of itself.
#[derive(Clone, Copy, Debug, PartialEq, Eq)]
pub enum Page {
    /// The words of its commands.
    Help,
    /// Its version, and that of the kit.
    Version,
}

impl Page {
    /// The text that is written.
    pub fn text(self, alloc: Global) -> Result<Vec<u8>, AllocError>
        ensures { IfOk result (λ text. text.items ≡ page_text self) }
    {
        match self {
            Page::Help => HELP.to_vec(alloc),
            Page::Version => VERSION.to_vec(alloc),
        }
    }
}
