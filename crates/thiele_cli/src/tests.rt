mod audits;
mod columns;
mod comparisons;
mod damages;
mod ends;
mod forms;
mod portfolios;
mod reports;
mod seeds;

use io_ports::{MemoryShelf, MemorySink};
use std::alloc::{AllocError, Global};

/// One state, 12 months, no interest, 384 minor units per year.
const FLAT: &[u8] = br#"format = 1
name = "flat"
months = 12
den = 1
start = "on"
states = ["on"]
interest = [{ from = 0, c = [0] }]

[[sojourn]]
state = "on"
steps = [{ from = 0, amount = 384 }]
"#;

/// The same with the longest term, the largest rate and a negative sign.
const LARGE: &[u8] = br#"format = 1
name = "large"
months = 1200
den = 1
start = "on"
states = ["on"]
interest = [{ from = 0, c = [0] }]

[[sojourn]]
state = "on"
steps = [{ from = 0, amount = -1000000000000 }]
"#;

/// The same with a force of interest of a twentieth and 12000 minor units per year.
const WITH_INTEREST: &[u8] = br#"format = 1
name = "flat"
months = 12
den = 20
start = "on"
states = ["on"]
interest = [{ from = 0, c = [1] }]

[[sojourn]]
state = "on"
steps = [{ from = 0, amount = 12000 }]
"#;

/// A lump of 10,000 after a year at a twentieth.
const LUMP: &[u8] = br#"format = 1
name = "f4"
months = 12
den = 20
start = "on"
states = ["on"]
interest = [{ from = 0, c = [1] }]

[[lump]]
month = 12
state = "on"
amount = 10000
"#;

/// An annuity of 1,200 a year to a life with an intensity of death of 2 %, for ten years at 3 %.
const LIFE: &[u8] = br#"format = 1
name = "life"
months = 120
den = 100
start = "active"
states = ["active", "dead"]
interest = [{ from = 0, c = [3] }]

[[transition]]
from = "active"
to = "dead"
rate = [{ from = 0, c = [2] }]

[[sojourn]]
state = "active"
steps = [{ from = 0, amount = 1200 }]
"#;

/// The same annuity to a life with an intensity of death of 5 %.
const FRAIL: &[u8] = br#"format = 1
name = "frail"
months = 120
den = 100
start = "active"
states = ["active", "dead"]
interest = [{ from = 0, c = [3] }]

[[transition]]
from = "active"
to = "dead"
rate = [{ from = 0, c = [5] }]

[[sojourn]]
state = "active"
steps = [{ from = 0, amount = 1200 }]
"#;

/// A sum of 100,000 at the death of that life, and a premium until the term.
const TERM: &[u8] = br#"format = 1
name = "term"
months = 120
den = 100
start = "active"
states = ["active", "dead"]
interest = [{ from = 0, c = [3] }]

[[transition]]
from = "active"
to = "dead"
rate = [{ from = 0, c = [2] }]
sum = [{ from = 0, amount = 100000 }]

[premium]
payers = ["active"]
until = 120
every = 0
"#;

/// A lump of 100 after one month.
const SURE: &[u8] = br#"format = 1
name = "sure"
months = 1
den = 1
start = "on"
states = ["on"]
interest = [{ from = 0, c = [0] }]
lump = [{ month = 1, state = "on", amount = 100 }]
"#;

/// A shelf with the files of these tests.
fn shelf(alloc: Global, failing: &[u64]) -> Result<MemoryShelf, AllocError> {
    let mut files = Vec::new(alloc);
    for (name, bytes) in [
        ("flat", FLAT),
        ("large", LARGE),
        ("interest", WITH_INTEREST),
        ("lump", LUMP),
        ("life", LIFE),
        ("frail", FRAIL),
        ("term", TERM),
        ("sure", SURE),
        ("cut", &FLAT[..22]),
        ("empty", b"".as_slice()),
    ] {
        files.push((name.as_bytes().to_vec(alloc)?, bytes.to_vec(alloc)?))?;
    }
    let long = vec![in alloc; b'#'; 1_048_577]?;
    files.push((b"long".to_vec(alloc)?, long))?;
    Ok(MemoryShelf::new(alloc, files, failing.to_vec(alloc)?))
}

fn sink(alloc: Global, failing: &[u64]) -> Result<MemorySink, AllocError> {
    MemorySink::new(alloc, 20_000, failing.to_vec(alloc)?)
}

fn words(alloc: Global, texts: &[&str]) -> Result<Vec<String>, AllocError> {
    let mut words = Vec::new(alloc);
    for text in texts {
        words.push(String::from_str(alloc, text)?)?;
    }
    Ok(words)
}
